// Small filters, and whether 64 firings of them can be done at once.

use crate::texts::code;
use std::alloc::Global;
use std::test::Fail;
use strc_sched_filters::lanes::firing::fire_lanes;
use strc_sched_filters::lanes::frame::LaneFrame;
use strc_work::firing::Fire;
use strc_work_code::code::Code;
use strc_work_meaning::body::Body;

// A row a line: the work of a filter with the fields `int x = 3; int[4] a;`, and whether its lanes
// go together. The items are 1, 2, 3 and so on.
const ROWS: &str = "\
work push 1 pop 1 { push(pop() + x); } => together
work push 1 pop 2 { push(pop() * pop()); } => together
work push 3 pop 1 peek 2 { push(peek(1)); push(-peek(0)); push(a[2] - pop()); } => together
work push 1 pop 1 peek 9 { int s = 0; for (int i = 0; i < 8; i++) s += a[i % 4] * peek(8 - i); \
push(s); pop(); } => together
work push 1 pop 1 { int[3] b; b[1] = pop(); b[2] = b[1] * b[1]; push(b[2] + b[0]); } => together
work push 2 pop 1 { int y = pop(); push(y / x); push(y % x); } => together
work push 1 pop 1 { int y = pop(); push((y << 3 ^ y >> 1) & 255 | 1); } => together
work push 1 pop 1 { int y = pop(); y = (y ^ y >> 16) * 73244475; push(y ^ y >> 15); } => together
work push 1 pop 1 { int i = 0; while ((i & 3) != 3) i++; push(i + pop()); } => together
work push 1 pop 1 { if (x > 2) push(pop()); else push(-pop()); } => together
work push 1 pop 1 { push(a[pop() & 3]); } => together
work push 1 pop 1 peek 4 { push(peek(peek(0) & 3)); pop(); } => together
work push 1 pop 1 { if (pop() > 40) push(1); else push(2); } => apart
work push 1 pop 1 { int y = pop(); while (y > 3) y = y - 3; push(y); } => apart
work push 1 pop 1 { push(10 / (pop() - 4)); } => apart
work push 1 pop 1 { x = pop(); push(x); } => apart
work push 1 pop 1 { println(1); push(pop()); } => apart
work push 1 pop 1 { push(a[pop()]); } => apart
";

/// What 64 firings push, one after another.
fn pushed(alloc: Global, code: &Code, items: &[i32]) -> Result<Vec<i32>, Fail> {
    let Ok(mut state) = code.start(alloc) else {
        return Err(Fail::from("start"));
    };
    let mut frame = code.frame(alloc)?;
    let mut words = Vec::new(alloc);
    let mut all = Vec::new(alloc);
    let pops = code.routine(Body::Work).limits.pops as usize;
    for lane in 0..64_usize {
        let window = items.get(lane * pops..).unwrap_or(&[]);
        if code
            .fire(Body::Work, &mut state, &mut frame, &window, &mut words)
            .is_err()
        {
            return Err(Fail::from("fault"));
        }
        all.extend_from_slice(frame.pushes())?;
    }
    Ok(all)
}

#[test]
fn firings_in_lanes_push_what_single_ones_do(rt: HostRuntime) -> Result<(), Fail> {
    let alloc = rt.alloc();
    let items: Vec<i32> = (1..200).collect(alloc)?;
    for row in ROWS.lines() {
        let (work, expected) = row.split_once(" => ").ok_or("a row without two parts")?;
        let text = format!(in alloc;
            "int->int filter F {{ int x = 3; int[4] a; init {{ a[2] = 7; }} {work} }}"
        )?;
        let code = code(alloc, &text)?;
        let Ok(state) = code.start(alloc) else {
            return Err(Fail::from("start"));
        };
        let mut frame = LaneFrame::new(alloc, &code)?;
        let done = fire_lanes(&code, &state, &mut frame, &items).is_ok();
        assert_eq!(rt; done, expected == "together", "{work}");
        if done {
            let single = pushed(alloc, &code, &items)?;
            assert!(rt; frame.given() == single.as_slice(), "{work}");
        }
    }
    Ok(())
}
