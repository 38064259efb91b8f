//! One thread for each of several jobs.

ghost use Rattle.std.specs.Prelude.{◌≡◌, ◌≤◌, [], All, vec_len, vec_capacity, IfOk, OnOk};
ghost use Rattle.std.specs.List.{AllZip};

use crate::exchange::ExchangeFault;
use std::alloc::Global;
use std::sync::Wait;
use std::thread;
use std::thread::{Promise, Scope, Threads};

// Starts the last job, then the others, and then waits for it.
fn work_from<
    's,
    E,
    T: Threads + Wait + Sync,
    J: Send + Drop + 's,
    P: Promise<Result<(A, B, C), ExchangeFault>> + Drop,
    A: Send + Drop + 's,
    B: Send + Drop + 's,
    C: Send + Drop + 's,
    F: Fn(J) -> Result<(A, B, C), ExchangeFault> + Sync + 's,
>(
    scope: &'s Scope<'s, E>,
    rt: &'s T,
    mut jobs: Vec<(J, P)>,
    work: &'s F,
    done: &mut Vec<(A, B, C)>,
) -> Result<(), ExchangeFault>
    requires empty { done.old.items ≡ [] }
    requires room { vec_len jobs ≤ vec_capacity done.old }
    requires work { (job : J) → F.pre work.now job }
    requires keeps { All (λ j. (left : _) → F.post work.now j.0 left → P.kept_by j.1 left)
        jobs.items }
    ensures done { OnOk result
        (AllZip (λ j one. P.kept_by j.1 (Ok one)) jobs.items done.new.items) }
    ensures room { OnOk result
        ((vec_len done.new ≡ vec_len jobs) × (vec_capacity done.new ≡ vec_capacity done.old)) }
{
    let Some((job, promise)) = jobs.pop() else {
        return Ok(());
    };
    let Ok(thread) = scope.spawn_with(promise, move || work(job)) else {
        return Err(ExchangeFault::NotStarted);
    };
    work_from(scope, rt, jobs, work, done)?;
    let one = thread.join(rt)?;
    done.push_reserved(one);
    Ok(())
}

// What the work on each job leaves, in order. Each is done in a thread of its own.
pub(crate) fn work_all<
    'x,
    T: Threads + Wait + Sync,
    J: Send + Drop,
    P: Promise<Result<(A, B, C), ExchangeFault>> + Drop,
    A: Send + Drop,
    B: Send + Drop,
    C: Send + Drop,
    F: Fn(J) -> Result<(A, B, C), ExchangeFault> + Sync,
>(rt: &'x T, alloc: Global, jobs: Vec<(J, P)>, work: &'x F) -> Result<Vec<(A, B, C)>, ExchangeFault>
    requires work { (job : J) → F.pre work.now job }
    requires keeps { All (λ j. (left : _) → F.post work.now j.0 left → P.kept_by j.1 left)
        jobs.items }
    ensures { IfOk result (λ done. AllZip (λ j one. P.kept_by j.1 (Ok one)) jobs.items done.items) }
{
    let mut done = Vec::with_capacity(alloc, jobs.len())?;
    thread::scope(
        thread::scope_env(),
        rt,
        move |scope| -> Result<Vec<(A, B, C)>, ExchangeFault>
            requires { (vec_len jobs ≤ vec_capacity done) × (done.items ≡ [])
                × ((job : J) → F.pre work.now job)
                × All (λ j. (left : _) → F.post work.now j.0 left → P.kept_by j.1 left) jobs.items }
            ensures { IfOk result
                (λ done. AllZip (λ j one. P.kept_by j.1 (Ok one)) jobs.items done.items) }
        {
            work_from(scope, rt, jobs, work, &mut done)?;
            Ok(done)
        },
    )
}

// Starts the work on the job, does what is to be done here, and then waits for it.
fn beside_in<
    's,
    E,
    T: Threads + Wait + Sync,
    J: Send + Drop + 's,
    P: Promise<O> + Drop,
    O: Send + Drop + 's,
    F: Fn(J) -> O + Sync + 's,
    H: FnOnce() -> Q,
    Q: Drop,
>(
    scope: &'s Scope<'s, E>,
    rt: &T,
    job: J,
    promise: P,
    work: &'s F,
    here: H,
) -> Result<(O, Q), ExchangeFault>
    requires work { (job : J) → F.pre work.now job }
    requires keeps { (left : O) → F.post work.now job left → P.kept_by promise left }
    requires here { H.pre here }
    ensures work { IfOk result (λ r. P.kept_by promise r.0) }
    ensures here { IfOk result (λ r. H.post here r.1) }
{
    let Ok(thread) = scope.spawn_with(promise, move || work(job)) else {
        return Err(ExchangeFault::NotStarted);
    };
    let left = here();
    Ok((thread.join(rt), left))
}

// What the work on a job leaves, which is done in a thread of its own, and what is left here meanwhile.
pub(crate) fn work_beside<
    T: Threads + Wait + Sync,
    J: Send + Drop,
    P: Promise<O> + Drop,
    O: Send + Drop,
    F: Fn(J) -> O + Sync,
    H: FnOnce() -> Q,
    Q: Drop,
>(rt: &T, job: J, promise: P, work: &F, here: H) -> Result<(O, Q), ExchangeFault>
    requires work { (job : J) → F.pre work.now job }
    requires keeps { (left : O) → F.post work.now job left → P.kept_by promise left }
    requires here { H.pre here }
    ensures work { IfOk result (λ r. P.kept_by promise r.0) }
    ensures here { IfOk result (λ r. H.post here r.1) }
{
    thread::scope(
        thread::scope_env(),
        rt,
        move |scope| -> Result<(O, Q), ExchangeFault>
            requires { ((job : J) → F.pre work.now job)
                × ((left : O) → F.post work.now job left → P.kept_by promise left) × H.pre here }
            ensures { IfOk result (λ r. P.kept_by promise r.0 × H.post here r.1) }
        { beside_in(scope, rt, job, promise, work, here) },
    )
}
