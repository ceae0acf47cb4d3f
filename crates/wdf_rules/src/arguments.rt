//! What is wrong with the arguments of a call.
ghost use Rattle.std.specs.Prelude.{◌≡◌};
ghost use Rattle.wdf_base.specs.Calls as calls;
ghost use Rattle.wdf_model.specs.rules.Faults as faults;

use crate::view::View;
use wdf_base::{Arg, Call, Kind, Sort, Value};
use wdf_same::same_kind;

/// Whether a call's row calls an argument of this sort an object.
fn is_object_sort(sort: Sort) -> bool
    ensures { result ≡ faults.is_object_sort sort }
{
    matches!(sort, Sort::AnyObject | Sort::ObjectOf(_) | Sort::AnyRequest)
}

/// Whether the sort asks for an object, and the argument is gone, or cleaned up where `cleaned_too` is false.
pub fn is_stale<V: View>(view: &V, cleaned_too: bool, sort: Sort, argument: Arg) -> bool
    ensures { result ≡ faults.is_stale (V.seen view.now) cleaned_too sort argument }
{
    match argument {
        Arg::Val(Value::Obj(handle)) => {
            let life = view.life(handle.id);
            is_object_sort(sort) && (life.is_gone() || (life.is_cleaned() && !cleaned_too))
        }
        _ => false,
    }
}

/// Whether an object of this kind is a request.
fn is_request_kind(kind: Kind) -> bool
    ensures { result ≡ faults.is_request_kind kind }
{
    matches!(kind, Kind::Request | Kind::Made)
}

/// Whether an object of this kind is what the sort asks for.
fn has_sort(kind: Kind, sort: Sort) -> bool
    ensures { result ≡ faults.has_sort kind sort }
{
    match sort {
        Sort::ObjectOf(wanted) => same_kind(kind, wanted),
        Sort::AnyRequest => is_request_kind(kind),
        _ => true,
    }
}

/// Whether the sort asks for an object, and the argument is none of the needed kind.
pub fn is_wrong_kind<V: View>(view: &V, sort: Sort, argument: Arg) -> bool
    ensures { result ≡ faults.is_wrong_kind (V.seen view.now) sort argument }
{
    match argument {
        Arg::Val(Value::Obj(handle)) => {
            is_object_sort(sort) && !has_sort(view.kind(handle.id), sort)
        }
        _ => is_object_sort(sort),
    }
}

/// Whether a status or number argument has the wrong kind of value, or is too great.
fn is_script_error(sort: Sort, argument: Arg) -> bool
    ensures { result ≡ faults.is_script_error sort argument }
{
    match sort {
        Sort::AnyStatus => !matches!(argument, Arg::Val(Value::Stat(_))),
        Sort::AnyNumber => !matches!(argument, Arg::Val(Value::Num(_))),
        Sort::UpTo(most) => match argument {
            Arg::Val(Value::Num(n)) => u64::from(most) < n,
            _ => true,
        },
        _ => false,
    }
}

/// Whether some object argument of a call is gone, or is cleaned up where the call's row excludes that.
pub fn any_stale<V: View>(view: &V, call: &Call) -> bool
    ensures { result ≡ faults.any_argument (faults.is_stale (V.seen view.now) (calls.signature_of call.now.kind).cleaned) call.now }
{
    let row = call.kind.signature();
    is_stale(view, row.cleaned, row.a, call.a)
        || is_stale(view, row.cleaned, row.b, call.b)
        || is_stale(view, row.cleaned, row.c, call.c)
}

/// Whether some argument of a call isn't an object of the needed kind.
pub fn any_wrong_kind<V: View>(view: &V, call: &Call) -> bool
    ensures { result ≡ faults.any_argument (faults.is_wrong_kind (V.seen view.now)) call.now }
{
    let row = call.kind.signature();
    is_wrong_kind(view, row.a, call.a)
        || is_wrong_kind(view, row.b, call.b)
        || is_wrong_kind(view, row.c, call.c)
}

/// Whether some status or number argument of a call has the wrong kind of value, or is too great.
pub fn any_script_error(call: &Call) -> bool
    ensures { result ≡ faults.any_argument faults.is_script_error call.now }
{
    let row = call.kind.signature();
    is_script_error(row.a, call.a)
        || is_script_error(row.b, call.b)
        || is_script_error(row.c, call.c)
}
