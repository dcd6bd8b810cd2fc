//! Queues of messages that wait.

use message_queue::MessageQueue;
use std::test::Fail;

#[test]
fn messages_leave_a_queue_in_their_order(rt: HostRuntime) -> Result<(), Fail> {
    let mut queue = MessageQueue::with_slots(rt.alloc(), 2)?;
    queue.push(&[1, 2, 3, 4]);
    queue.push(&[5]);
    queue.pop();
    queue.push(&[6, 7]);
    let waits = queue.len() == 2
        && queue.first() == Some([5].as_slice())
        && queue.last() == Some([6, 7].as_slice());
    assert!(rt; waits);
    Ok(())
}
