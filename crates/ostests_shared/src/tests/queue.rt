//! The ready queue: what it gives back, and how often its word and a queue's front are read.

use osbase::{CoreId, Job, Runner, TaskRef};
use osqueue::{Reads, Ready, ReadyQueue};
use std::test::Fail;

const JOB: Ready = Ready {
    priority: 5,
    job: Job {
        runner: Runner::Task(TaskRef {
            core: CoreId { number: 0 },
            index: 3,
        }),
        stamp: 7,
    },
};

#[test]
fn a_look_and_a_pop_read_the_word_and_one_front(rt: HostRuntime) -> Result<(), Fail> {
    let mut reads = Reads::new();
    let mut queue: ReadyQueue<8, 2> = ReadyQueue::new();
    assert!(rt; queue.pop_best(&mut reads).is_none());
    assert_eq!(rt; reads.count(), 1);
    assert!(rt; queue.has_room());
    queue.push_back(JOB, &mut reads);
    assert_eq!(rt; reads.count(), 2);
    let front = queue.best(&mut reads).ok_or("a job")?;
    assert_eq!(rt; front.job.stamp, 7);
    assert_eq!(rt; reads.count(), 4);
    let first = queue.pop_best(&mut reads).ok_or("a job")?;
    assert_eq!(rt; first.job.stamp, 7);
    assert_eq!(rt; reads.count(), 6);
    queue.push_front(JOB, &mut reads);
    queue.remove(JOB, &mut reads);
    assert!(rt; queue.pop_best(&mut reads).is_none());
    Ok(())
}
