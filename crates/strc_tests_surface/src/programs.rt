// The programs of the tests: pipelines of these filters.

use std::alloc::{AllocError, Global};
use std::test::Fail;
use strc_run::compile::{Plan, compile};
use strc_run::options::Options;
use strc_sched::outcome::{Outcome, Tape};

/// What the pipelines are made of.
const FILTERS: &str = "\
void->int pipeline R { add FileReader<int>(\"in\"); }
int->void pipeline W { add FileWriter<int>(\"out\"); }
int->int filter MovSum(int n) {
    work push 1 pop 1 peek n { int s; for (int i = 0; i < n; i++) s += peek(i); push(s); pop(); }
}
int->int filter Sum(int n) {
    work push 1 pop n { int s; for (int i = 0; i < n; i++) s += pop(); push(s); }
}
int->int filter Pair { work push 2 pop 1 { int x = pop(); push(x); push(-x); } }
int->int filter Inv { work push 1 pop 1 { push(100 / pop()); } }
int->int filter Shifted { work push 1 pop 1 { push(100 / (pop() - 50)); } }
";

/// Sums of three neighbours.
pub(crate) const MOVING_SUMS: &str = "add R; add MovSum(3); add W;";

/// Two items of one, and one of three.
pub(crate) const PAIRS: &str = "add R; add Pair; add Sum(3); add W;";

/// Sums of windows that overlap, four by four.
pub(crate) const SUMS_OF_SUMS: &str = "add R; add MovSum(3); add Sum(4); add W;";

/// Two filters that fault, the second one sooner.
pub(crate) const FAULTS: &str = "add R; add Inv; add Shifted; add W;";

/// The text of a pipeline of these children.
pub(crate) fn text_of(alloc: Global, children: &str) -> Result<String, AllocError> {
    format!(in alloc; "{FILTERS}void->void pipeline Main {{ {children} }}\n")
}

/// The plan of a pipeline of these children.
pub(crate) fn plan_of(alloc: Global, children: &str, ways: u32, fuse: u32) -> Result<Plan, Fail> {
    let text = text_of(alloc, children)?;
    let options = Options {
        main: None,
        ways,
        fuse,
    };
    let plan = compile(alloc, text.as_bytes(), &options).ok();
    Ok(plan.ok_or("no plan")?)
}

/// The values of the words on all tapes of a run that ends without a fault.
pub(crate) fn values_of(alloc: Global, outcome: &Outcome) -> Result<Vec<i32>, Fail> {
    let Outcome::Done(tapes) = outcome else {
        return Err(Fail::from("a fault"));
    };
    let tapes: &[Tape] = tapes.as_slice();
    let mut values = Vec::new(alloc);
    for tape in tapes {
        for word in tape.words.iter() {
            values.push(word.value)?;
        }
    }
    Ok(values)
}
