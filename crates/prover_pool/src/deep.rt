//! Work on a thread whose stack suffices for the highest formulas.

use core::thread::Stack;
use std::snapshot::Snapshot;
use std::sync::Wait;
use std::thread;
use std::thread::{Builder, Promise, Threads};

/// The stacks that are asked for, in bytes, one after the other: what is reserved takes memory only where it is used.
const STACKS: [usize; 3] = [1 << 30, 1 << 28, 1 << 26];

/// Something to do once: when it may be done, and what it gives.
pub trait Task {
    type Output;

    ghost can_run: { Self → Type 0 };

    ghost gives: { Self → Self.Output → Type 0 };

    fn run(self) -> Self::Output
        requires { can_run self }
        ensures { gives self result };
}

// What a thread hands back is given by this task.
#[derive(Drop)]
struct GivenBy<T> {
    task: Snapshot<T>,
}

impl<T: Task<Output = X>, X> Promise<X> for GivenBy<T> {
    ghost kept_by = { λ p r. T.gives p.task.value r };
}

// Whether the system lets a thread have a stack of this size, and leaves three times as much address space beside it.
fn has_room<R: Threads>(rt: &R, size: usize) -> bool {
    match Builder::new()
        .stack_size(size.saturating_mul(4))
        .spawn(rt, || ())
    {
        Ok(thread) => {
            thread.join(rt);
            true
        }
        Err(_) => false,
    }
}

// The first of the stacks that there is room for, or else one of the size that the system gives by itself.
fn stack<R: Threads>(rt: &R) -> Stack {
    for size in STACKS {
        if has_room(rt, size) {
            return Stack::new().stack_size(size);
        }
    }
    Stack::new()
}

/// Does a task on a thread with a large stack, and here where no thread can be made. High formulas need more stack than
/// a program or a thread begins with.
pub fn run_deep<R: Threads + Wait, T: Task<Output = X> + Send + Drop, X: Send + Drop>(
    rt: &R,
    task: T,
) -> X
    requires { T.can_run task }
    ensures { T.gives task result }
{
    thread::scope(
        thread::scope_env(),
        rt,
        |scope| -> X
            requires { T.can_run task }
            ensures { T.gives task result }
        {
            let promise = GivenBy {
                task: Snapshot::of(&task),
            };
            match stack(rt).spawn_scoped_with(scope, promise, move || task.run()) {
                Ok(child) => child.join(rt),
                Err(refused) => (refused.value)(),
            }
        },
    )
}
