//! Two seats come together again.
ghost use Rattle.std.specs.Prelude.{◌≡◌, ◌≢◌, IfSome, if◌then◌else◌, is_some};
ghost use mathlib.Core.List.{IsPrefix};
ghost use Rattle.wdf_turn.specs.declared.token.Hold.TheVariants.{Idle};
ghost use Rattle.wdf_turn.specs.Turns.{token, opening, IsSeatOf};

use wdf_turn::{Chronicle, Seat, Turn};

/// Closes a turnstile of two seats. The second one is joined first, where it is still out.
pub fn close_pair<T: Chronicle>(
    turn: Turn<T>,
    mut first: Seat<T>,
    second: &mut Option<Seat<T>>,
) -> T
    requires own { IsSeatOf turn first × IfSome second.old (IsSeatOf turn) }
    requires idle { ((token first).hold ≡ Idle) × IfSome second.old (λ s. (token s).hold ≡ Idle) }
    requires numbers { ((token first).number ≡ 1) × IfSome second.old (λ s. (token s).number ≢ 1) }
    requires out { (token first).unjoined ≡ (if is_some second.old then 1 else 0) }
    ensures root { T.root result ≡ T.root (opening turn) }
    ensures list { IsPrefix (T.events (opening turn)) (T.events result) }
{
    if let Some(seat) = second.take() {
        turn.join(seat, &mut first);
    }
    turn.close(first)
}
