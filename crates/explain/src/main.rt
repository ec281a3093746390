// The explain program: reads what certify reads, and prints certify's line and a line that says the answer in words.
// What a call of the operating system reads or writes is outside every contract; `explain_text` has the contract of all that lies between.
// Its exit status says nothing: the lines are the answer, and where there are none standard error says why.
#![tactic(auto)]

use explanations::explain_text;

fn main(rt: HostRuntime) {
    programs::run(
        &rt,
        "explain",
        |input: &[u8]| rt.write_all(explain_text(input).as_bytes()),
    );
}
