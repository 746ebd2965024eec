//! A kernel by itself, item by item.

use osbase::{
    Agreement, CoreId, CoreSet, Item, List, Mark, Message, ModeId, Report, Status, Stimulus,
};
use osconf::{Config, read_config};
use oskernel::{STEP_MARKS, Want};
use osplay::{Difference, blocks_of, same};
use osrun::CoreKernel;
use std::alloc::Global;
use std::process::Abort;
use std::slice;
use std::test::Fail;

/// Task A of core 0, which starts core 1, activates task B of core 1.
const TWO_CORES: &str =
    r#"{"cores":[{"id":0,"start":[1],"tasks":[{"name":"A","prio":1,"auto":["M"],"script":"ActivateTask B;TerminateTask"}]},{"id":1,"tasks":[{"name":"B","prio":1,"script":"TerminateTask"}]}]}"#;

const CORE_0: CoreId = CoreId { number: 0 };

const CORE_1: CoreId = CoreId { number: 1 };

const REPLY: Item = Item::Received {
    from: CORE_1,
    number: 0,
    message: Message::Reply(Status::EOk),
};

/// Cores 0 and 1.
const STARTED: CoreSet = CoreSet {
    members: [
        true, true, false, false, false, false, false, false, false, false, false, false, false,
        false, false, false,
    ],
};

/// The items of core 0, up to its end.
const ITEMS: [Item; 12] = [
    Item::Began {
        core: CORE_1,
        status: Status::EOk,
    },
    Item::Entered,
    Item::Pass1(Agreement::Mode(ModeId { index: 0 })),
    Item::Readied,
    Item::Pass2(STARTED),
    Item::Stim(Stimulus::Op),
    Item::Posted(CORE_1),
    REPLY,
    Item::Stim(Stimulus::Op),
    Item::Drained,
    Item::PassEnd,
    Item::Last(None),
];

const BLOCK: &str =
    "core 0\nstart 1 E_OK\nhook Startup\nact A\npre A\nout 1 ActivateTask B\nstat A ActivateTask E_OK\npost A\nend A\n";

// The kernel of core 0 after it took these items and added their marks. Checks that it may take each of them.
fn kernel_after<'a>(
    rt: &impl Abort,
    config: &'a Config,
    items: &[Item],
    marks: &mut Vec<Mark>,
) -> Result<CoreKernel<'a>, Fail> {
    let _core = config.plan().core(CORE_0).ok_or("core 0")?;
    let mut kernel = CoreKernel::new(config, CORE_0);
    for item in items {
        assert!(rt; kernel.may_take(item));
        assert!(rt; marks.capacity() - marks.len() >= STEP_MARKS);
        kernel.step(*item, marks);
    }
    Ok(kernel)
}

// The block of core 0 with these marks.
fn block_of(alloc: Global, config: &Config, marks: Vec<Mark>) -> Result<String, Difference> {
    let report = Report {
        core: CORE_0,
        items: List::new(alloc),
        clocks: List::new(alloc),
        marks: List::from_vec(marks),
        ended: true,
    };
    blocks_of(alloc, config, slice::from_ref(&report))
}

#[test]
fn a_core_takes_its_items_and_prints_its_block(rt: HostRuntime) -> Result<(), Fail> {
    let alloc = rt.alloc();
    let config = read_config(alloc, TWO_CORES)?;
    let mut marks = Vec::with_capacity(alloc, 8192)?;
    let _kernel = kernel_after(&rt, &config, &ITEMS, &mut marks)?;
    let block = block_of(alloc, &config, marks)?;
    same(alloc, "", block.as_str(), BLOCK)?;
    Ok(())
}

// Whether the kernel may serve other cores, goes on by itself, and has nothing in its outbox.
fn goes_on(kernel: &CoreKernel) -> bool {
    kernel.may_serve() && matches!(kernel.want(), Want::GoOn) && kernel.front().is_none()
}

#[test]
fn a_second_reply_is_refused(rt: HostRuntime) -> Result<(), Fail> {
    let alloc = rt.alloc();
    let config = read_config(alloc, TWO_CORES)?;
    let mut marks = Vec::with_capacity(alloc, 8192)?;
    // The first eight items end with the reply.
    let kernel = kernel_after(&rt, &config, &ITEMS[..8], &mut marks)?;
    assert!(rt; !kernel.may_take(&REPLY));
    assert!(rt; goes_on(&kernel));
    Ok(())
}
