// Where the stages of a program with a feedback loop begin.

use std::alloc::{AllocError, Global};
use std::test::Fail;
use strc_run::compile::{Plan, compile};
use strc_run::options::Options;
use strc_stage_plan::bounds::stage_bounds;

/// A reader is node 0, the loop has nodes 1 to 4, and a writer is node 5.
const TEXT: &[u8] = b"
int->int feedbackloop Echo {
    join roundrobin(1, 1);
    body int->int filter { work push 1 pop 2 { push(pop() + pop()); } }
    loop int->int filter { work push 1 pop 1 { push(pop() / 2); } }
    split duplicate;
    enqueue 0;
}
void->void pipeline Echoes {
    add FileReader<int>(\"sound\");
    add Echo;
    add FileWriter<int>(\"echo\");
}
";

/// The digits of bounds after a 1, which keeps a first 0.
fn digits(bounds: &[usize]) -> usize {
    let mut digits: usize = 1;
    for bound in bounds {
        digits = digits.wrapping_mul(10).wrapping_add(*bound);
    }
    digits
}

fn bounds(alloc: Global, plan: &Plan, workers: u32) -> Result<Vec<usize>, AllocError> {
    plan.known();
    let round = plan.transformed_schedule().round();
    stage_bounds(alloc, plan.transformed_graph(), round, workers)
}

#[test]
fn a_loop_stays_in_one_stage(rt: HostRuntime) -> Result<(), Fail> {
    let alloc = rt.alloc();
    let options = Options {
        main: None,
        ways: 1,
        fuse: 0,
    };
    let plan = compile(alloc, TEXT, &options).ok().ok_or("no plan")?;
    assert_eq!(rt; digits(&bounds(alloc, &plan, 0)?), 16);
    assert_eq!(rt; digits(&bounds(alloc, &plan, 1)?), 106);
    assert_eq!(rt; digits(&bounds(alloc, &plan, 2)?), 1016);
    assert_eq!(rt; digits(&bounds(alloc, &plan, 3)?), 10156);
    assert_eq!(rt; digits(&bounds(alloc, &plan, 9)?), 10156);
    Ok(())
}
