// What is read of a line.
ghost use Rattle.std.specs.Prelude.{◌≡◌, ◌≢◌, IfOk, IfErr, OnOk};
ghost use Rattle.tn_serve.specs.Views.{request_seen, request_fault_seen};

use std::alloc::Global;
use tn_serve::{RequestFault, ServeRequest};

/// `tn_serve::read_request` has one answer, unless memory was refused.
pub fn read_request(
    alloc: Global,
    line: &[u8],
) -> (
    Result<ServeRequest, RequestFault>,
    Result<ServeRequest, RequestFault>,
)
    ensures request { IfOk result.0 (λ x. IfOk result.1 (λ y. request_seen x ≡ request_seen y)) }
    ensures memory { OnOk result.0 (IfErr result.1 (λ f. ¬ (f ≢ RequestFault.Memory))) }
    ensures fault { IfErr result.0 (λ e. IfErr result.1 (λ f.
        e ≢ RequestFault.Memory → f ≢ RequestFault.Memory → request_fault_seen e ≡ request_fault_seen f)) }
{
    let first = tn_serve::read_request(alloc, line);
    let second = tn_serve::read_request(alloc, line);
    (first, second)
}
