use carton_queue::{BucketQueue, QueueAnswer, QueueCall, run_calls};

#[test]
fn least_comes_out_first(rt: HostRuntime) {
    let Ok(mut queue) = BucketQueue::with_room(rt.alloc(), 4, 10) else {
        panic!(rt; "no memory")
    };
    queue.put(0, 5);
    queue.put(1, 3);
    queue.put(2, 5);
    queue.lower(2, 1);
    assert_eq!(rt; queue.take_least(), Some((2, 1)));
    assert_eq!(rt; queue.remove(0), Some(5));
    assert_eq!(rt; queue.take_least(), Some((1, 3)));
    assert_eq!(rt; queue.take_least(), None);
}

#[test]
fn calls_out_of_order_are_refused(rt: HostRuntime) {
    let Ok(mut queue) = BucketQueue::with_room(rt.alloc(), 4, 10) else {
        panic!(rt; "no memory")
    };
    let calls = [
        QueueCall::Put {
            node: 0,
            priority: 5,
        },
        QueueCall::Put {
            node: 0,
            priority: 4,
        },
        QueueCall::Lower {
            node: 0,
            priority: 6,
        },
        QueueCall::Remove { node: 0 },
        QueueCall::TakeLeast,
    ];
    let mut answers = [QueueAnswer::Done; 5];
    run_calls(&mut queue, &calls, &mut answers);
    let expected = [
        QueueAnswer::Done,
        QueueAnswer::Refused,
        QueueAnswer::Refused,
        QueueAnswer::Priority(5),
        QueueAnswer::Nothing,
    ];
    assert_eq!(rt; answers, expected);
}
