ghost use Rattle.std.specs.Prelude.{◌≡◌};
ghost use Rattle.hx_session.specs.Kinds.{kind_test};

use hx_types::Op;

/// What a call is of.
#[derive(Clone, Copy)]
pub enum CallKind {
    /// A put, get, del, conditional put or atomic operation.
    OnKey,
    Search,
    /// A stop or an add.
    Administrative,
}

/// Whether an operation is of this kind.
pub fn is_of(kind: CallKind, op: &Op) -> bool
    ensures { result ≡ kind_test kind op.now }
{
    match op {
        Op::Put { .. } | Op::Get { .. } | Op::Del { .. } | Op::Cput { .. } | Op::Atomic { .. } =>
            matches!(kind, CallKind::OnKey),
        Op::Search { .. } => matches!(kind, CallKind::Search),
        Op::Stop { .. } | Op::Add { .. } => matches!(kind, CallKind::Administrative),
    }
}
