// Sums of windows and a quotient, by one worker and by several, by batches of these numbers of
// rounds.

use std::alloc::Global;
use std::test::Fail;
use strc_run::OpenGate;
use strc_run::compile::{Plan, compile};
use strc_run::options::Options;
use strc_run::run::{Outcome, Round, run_shared};
use strc_run::sharing::{Batching, Sharing};

/// Sums of three neighbours, and a hundred divided by what is left of them to 27.
const SUMS: &str = "\
int->int filter Sums {
    work push 1 pop 1 peek 3 { push(peek(0) + peek(1) + peek(2)); pop(); }
}
int->int filter Shares { work push 1 pop 1 { push(100 / (pop() - 27)); } }
void->void pipeline Main {
    add FileReader<int>(\"in\");
    add Sums;
    add Shares;
    add FileWriter<int>(\"out\");
}
";

/// By how many workers, and how many rounds at a time: one by one, as the plan suits, and so many.
const SHARINGS: [(u32, Batching); 9] = [
    (1, Batching::One),
    (1, Batching::Chosen),
    (1, Batching::Of(2)),
    (1, Batching::Of(3)),
    (1, Batching::Of(64)),
    (2, Batching::Of(3)),
    (3, Batching::Chosen),
    (3, Batching::Of(2)),
    (64, Batching::Of(7)),
];

fn plan_of(alloc: Global) -> Result<Plan, Fail> {
    let options = Options {
        main: None,
        ways: 1,
        fuse: 0,
    };
    let plan = compile(alloc, SUMS.as_bytes(), &options).ok();
    Ok(plan.ok_or("no plan")?)
}

/// The values on the tapes of a run that ends without a fault.
fn values_of(alloc: Global, outcome: &Outcome) -> Result<Vec<i32>, Fail> {
    let Outcome::Done(tapes) = outcome else {
        return Err(Fail::from("a fault"));
    };
    let mut values = Vec::new(alloc);
    for tape in tapes.iter() {
        for word in tape.words.iter() {
            values.push(word.value)?;
        }
    }
    Ok(values)
}

#[test]
fn batches_give_what_rounds_give(rt: HostRuntime) -> Result<(), Fail> {
    let plan = plan_of(rt.alloc())?;
    let input = [1, 2, 3, 4, 5, 6, 7, 8, 9];
    for (workers, batching) in SHARINGS {
        let sharing = Sharing { workers, batching };
        let run = run_shared(&rt, rt.alloc(), &plan, &input, None, sharing, &OpenGate)?;
        let values = values_of(rt.alloc(), &run.outcome)?;
        assert_eq!(rt;
            values.as_slice(),
            [-4, -5, -6, -8, -11, -16, -33].as_slice()
        );
    }
    Ok(())
}

#[test]
fn a_fault_in_a_batch_is_that_of_its_round(rt: HostRuntime) -> Result<(), Fail> {
    let plan = plan_of(rt.alloc())?;
    let input = [6, 7, 8, 9, 10, 11];
    for (workers, batching) in SHARINGS {
        let sharing = Sharing { workers, batching };
        let run = run_shared(&rt, rt.alloc(), &plan, &input, Some(4), sharing, &OpenGate)?;
        let Outcome::Fault {
            node,
            firing,
            round: Round::At(round),
            ..
        } = run.outcome
        else {
            return Err(Fail::from("no fault of a round"));
        };
        assert_eq!(rt; (node, firing, round), (2, 2, 2));
    }
    Ok(())
}
