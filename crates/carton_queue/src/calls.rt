ghost use Rattle.std.specs.Prelude.{◌≡◌, ℕ, length};
ghost use Rattle.carton_queue.specs.declared.calls.QueueCall.TheVariants.{Put, Lower, TakeLeast, Remove};
ghost use Rattle.carton_queue.specs.Calls.{Answers, Runs};

use crate::queue::BucketQueue;

/// A call of a queue, as data.
#[derive(Clone, Copy, Debug, PartialEq, Eq)]
pub enum QueueCall {
    /// `BucketQueue::put`
    Put { node: u32, priority: u32 },
    /// `BucketQueue::lower`
    Lower { node: u32, priority: u32 },
    /// `BucketQueue::take_least`
    TakeLeast,
    /// `BucketQueue::remove`
    Remove { node: u32 },
}

/// What a queue answered to a call.
#[derive(Clone, Copy, Debug, PartialEq, Eq)]
pub enum QueueAnswer {
    /// The node was put, or its priority was lowered.
    Done,
    /// The call's condition doesn't hold, and the queue stayed as it was.
    Refused,
    /// The node and the priority that were taken.
    Pair(u32, u32),
    /// The priority of the node that was removed.
    Priority(u32),
    /// There was nothing to take or to remove.
    Nothing,
}

// Puts a node, unless it is out of range or waits already.
fn answer_put(queue: &mut BucketQueue, node: u32, priority: u32) -> QueueAnswer
    ensures { Answers (Put node priority) result queue.old queue.new }
{
    if node as usize >= queue.nodes() {
        return QueueAnswer::Refused;
    }
    if priority >= queue.buckets() {
        return QueueAnswer::Refused;
    }
    if let Some(_) = queue.priority(node) {
        return QueueAnswer::Refused;
    }
    queue.put(node, priority);
    QueueAnswer::Done
}

// Lowers a node's priority, unless it doesn't wait or the priority would rise.
fn answer_lower(queue: &mut BucketQueue, node: u32, priority: u32) -> QueueAnswer
    ensures { Answers (Lower node priority) result queue.old queue.new }
{
    let Some(old) = queue.priority(node) else {
        return QueueAnswer::Refused;
    };
    if old < priority {
        return QueueAnswer::Refused;
    }
    queue.lower(node, priority);
    QueueAnswer::Done
}

// Takes out a node with least priority, if there is one.
fn answer_take(queue: &mut BucketQueue) -> QueueAnswer
    ensures { Answers TakeLeast result queue.old queue.new }
{
    match queue.take_least() {
        Some((node, priority)) => QueueAnswer::Pair(node, priority),
        None => QueueAnswer::Nothing,
    }
}

// Takes out a node, unless it is out of range.
fn answer_remove(queue: &mut BucketQueue, node: u32) -> QueueAnswer
    ensures { Answers (Remove node) result queue.old queue.new }
{
    if node as usize >= queue.nodes() {
        return QueueAnswer::Refused;
    }
    match queue.remove(node) {
        Some(priority) => QueueAnswer::Priority(priority),
        None => QueueAnswer::Nothing,
    }
}

// Makes a call, if its condition holds.
fn answer(queue: &mut BucketQueue, call: &QueueCall) -> QueueAnswer
    ensures { Answers call.now result queue.old queue.new }
{
    match *call {
        QueueCall::Put { node, priority } => answer_put(queue, node, priority),
        QueueCall::Lower { node, priority } => answer_lower(queue, node, priority),
        QueueCall::TakeLeast => answer_take(queue),
        QueueCall::Remove { node } => answer_remove(queue, node),
    }
}

/// Makes the calls in order, and writes the answer to each into its place.
pub fn run_calls(queue: &mut BucketQueue, calls: &[QueueCall], answers: &mut [QueueAnswer])
    requires { length answers.old ≡ length calls.now }
    ensures len { length answers.new ≡ length calls.now }
    ensures runs { Runs calls.now answers.new queue.old queue.new }
{
    for i in 0..calls.len() {
        answers[i] = answer(queue, &calls[i]);
    }
}
