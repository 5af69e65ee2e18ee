ghost use Rattle.std.specs.Prelude.{◌≡◌};
ghost use Rattle.carton_queue.specs.Waits.{nodes_of, IsEmpty};
ghost use Rattle.carton_queue_tests.specs.Waits.{AllWait};
ghost use Rattle.carton_queue_tests.specs.declared.many.TheConstants.{NODES, BUCKETS};

use carton_queue::BucketQueue;

const NODES: u32 = 1_000_000;

const BUCKETS: u32 = 16;

const NODES_OF_A_BUCKET: u32 = NODES / BUCKETS;

// Puts each node at its remainder.
fn put_all(queue: &mut BucketQueue)
    requires nodes { nodes_of queue.old ≡ NODES }
    requires buckets { queue.old.buckets ≡ BUCKETS }
    requires empty { IsEmpty queue.old }
    ensures nodes { nodes_of queue.new ≡ NODES }
    ensures waiting { AllWait NODES queue.new }
{
    for node in 0..NODES {
        queue.put(node, node % BUCKETS);
    }
}

// Lowers the nodes of the last bucket to 0.
fn lower_last(queue: &mut BucketQueue)
    requires nodes { nodes_of queue.old ≡ NODES }
    requires waiting { AllWait NODES queue.old }
    ensures nodes { nodes_of queue.new ≡ NODES }
{
    for node in 0..NODES {
        if node % BUCKETS == BUCKETS - 1 {
            queue.lower(node, 0);
        }
    }
}

// Removes the even nodes.
fn remove_even(queue: &mut BucketQueue)
    requires { nodes_of queue.old ≡ NODES }
{
    for node in 0..NODES {
        if node % 2 == 0 {
            queue.remove(node);
        }
    }
}

// Takes nodes until one has another priority, at most so many as a bucket had, and counts them.
fn taken_at(queue: &mut BucketQueue, priority: u32) -> u32 {
    for count in 0..NODES_OF_A_BUCKET {
        match queue.take_least() {
            Some((_, found)) if found == priority => {}
            _ => return count,
        }
    }
    NODES_OF_A_BUCKET
}

#[test]
fn a_million_nodes_come_out_in_order(rt: HostRuntime) {
    let Ok(mut queue) = BucketQueue::with_room(rt.alloc(), NODES, BUCKETS) else {
        panic!(rt; "no memory")
    };
    put_all(&mut queue);
    lower_last(&mut queue);
    remove_even(&mut queue);
    for priority in [0, 1, 3, 5, 7, 9, 11, 13] {
        assert_eq!(rt; taken_at(&mut queue, priority), 62_500, "at {priority}");
    }
    assert_eq!(rt; queue.take_least(), None);
}
