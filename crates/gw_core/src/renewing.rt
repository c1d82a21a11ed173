//! The workers of a gateway that is to begin anew.

ghost use Rattle.std.specs.Prelude.{◌≡◌, map};
ghost use Rattle.std.specs.List.{list_any};
ghost use Rattle.gw_core.specs.Renewing.{holds_frame, holds_copy, renewed};

use crate::worker::Worker;

/// Whether a worker holds a frame that is not finished.
pub(crate) fn any_frame(workers: &[Worker]) -> bool
    ensures { result ≡ list_any holds_frame workers.now }
{
    workers.iter().any(|worker| worker.holds_frame())
}

/// Whether a copy waits for a port.
pub(crate) fn any_copy(workers: &[Worker]) -> bool
    ensures { result ≡ list_any holds_copy workers.now }
{
    workers.iter().any(|worker| worker.holds_copy())
}

/// Lets each worker count from 0 again.
pub(crate) fn renew_all(workers: &mut Vec<Worker>)
    ensures { workers.new.items ≡ map renewed workers.old.items }
{
    for port in 0..workers.len() {
        workers[port].renew();
    }
}
