// What the programs have in common: each reads standard input, prints what it makes of it, and drops what stands behind the first bytes of a long input.
// What a call of the operating system reads or writes is outside every contract.
#![tactic(auto)]

use standard_input::{INPUT_BYTES, drop_rest, read_input};
use std::io;

// `print` answers an input. Where nothing is printed standard error says why, in the program's name.
pub fn run<F: Fn(&[u8]) -> io::Result<()>>(rt: &HostRuntime, name: &str, print: F)
    requires { F.IsAlwaysCallable print }
{
    let mut stdin = rt.stdin();
    let mut input = [0u8; INPUT_BYTES];
    let Ok(count) = read_input(&mut stdin, &mut input) else {
        let _ = eprintln!(rt; "{name}: standard input cannot be read");
        return;
    };
    if print(&input[..count]).is_err() {
        let _ = eprintln!(rt; "{name}: the answer cannot be written");
    }
    if count == INPUT_BYTES {
        drop_rest(&mut stdin, u64::MAX);
    }
}
