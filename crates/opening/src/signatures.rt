// A signature that is no TypeSpec, or the method below a FNPTR, up to its types: a field, locals, a property or a method.
ghost use Rattle.std.specs.Prelude.{◌≡◌, ◌<◌, length};
ghost use Rattle.element.specs.declared.Place.TheVariants as Place;
ghost use Rattle.opening.specs.Lead.{lead_of, counted_of, call_at, generic_at, lead_form, lead_at};

use crate::placed;
use answer::refusal::{Fault, Refusal};
use element::{Form, Place};
use grammar::{METHOD, Position};
use number::MAX_NUMBER;
use number::checked::{checked_at, count_at};

// A signature's own numbers, but for its children; and the types that follow: how many, the place of the first, that of the others, and the offset.
#[derive(Clone, Copy, Debug, PartialEq, Eq)]
pub struct Lead {
    pub kind: u32,
    pub a: u32,
    pub b: u32,
    pub count: u32,
    pub first: Place,
    pub rest: Place,
    pub next: usize,
}

fn lead_of(kind: u32, a: u32, b: u32, count: u32, first: Place, rest: Place, next: usize) -> Lead
    ensures { result ≡ lead_of kind a b count first rest next }
{
    Lead {
        kind,
        a,
        b,
        count,
        first,
        rest,
        next,
    }
}

// A count of at least 1, which stands at `from`, then that many types.
fn counted(src: &[u8], place: Place, kind: u32, from: usize) -> Result<Lead, Fault>
    ensures { result ≡ counted_of src.now place kind from }
{
    let count = placed(count_at(src, from, 1, MAX_NUMBER), from)?;
    Ok(lead_of(kind, 0, 0, count.value, place, place, count.next))
}

// ParamCount, which stands at `from`, then a return type and that many parameters.
fn call_at(
    src: &[u8],
    params: Place,
    kind: u32,
    a: u32,
    byte: u8,
    from: usize,
) -> Result<Lead, Fault>
    ensures { result ≡ call_at src.now params kind a byte from }
{
    let count = placed(checked_at(src, from), from)?;
    let types = count.value + 1;
    let b = byte as u32;
    Ok(lead_of(kind, a, b, types, Place::RetType, params, count.next))
}

// A generic count of at least 1, which stands at `from`, then as in `call_at`.
fn generic_at(src: &[u8], params: Place, kind: u32, byte: u8, from: usize) -> Result<Lead, Fault>
    ensures { result ≡ generic_at src.now params kind byte from }
{
    let count = placed(count_at(src, from, 1, MAX_NUMBER), from)?;
    call_at(src, params, kind, count.value, byte, count.next)
}

// What follows a signature's first byte, up to its types.
fn lead_form(src: &[u8], form: Form, kind: u32, byte: u8, at: usize) -> Result<Lead, Fault>
    requires { at < length src.now }
    ensures { result ≡ lead_form form src.now kind byte at }
{
    let from = at + 1;
    match form {
        Form::Wrap(child) => Ok(lead_of(kind, 0, 0, 1, child, child, from)),
        Form::Counted(child) => counted(src, child, kind, from),
        Form::Callable(params) => call_at(src, params, kind, 0, byte, from),
        Form::Generic(params) => generic_at(src, params, kind, byte, from),
        _ => Err(Refusal::ByteNotAllowed.at(at)),
    }
}

// A signature up to its types.
pub fn lead_at(src: &[u8], place: Place, here: Position, d: usize) -> Result<Lead, Fault>
    ensures { result ≡ lead_at d src.now place here.at here.node }
{
    let byte = crate::code_at(src, place, here, d)?;
    let form = element::signature_form_of(place, byte);
    let kind = grammar::kind_of(place, byte);
    lead_form(src, form, kind, byte, here.at)
}

// The method below a FNPTR up to its types.
// Kept: apart from `lead_at`, by one definition: by `lead_at`, which was tried, FNPTRs take 61 in a hundred more instructions, and fields 29.
pub fn fn_ptr_lead_at(src: &[u8], here: Position, d: usize) -> Result<Lead, Fault>
    ensures { result ≡ lead_at d src.now Place.FnPtrMethod here.at here.node }
{
    let at = here.at;
    let byte = crate::code_at(src, Place::FnPtrMethod, here, d)?;
    match element::fn_ptr_method_form(byte) {
        Form::Callable(params) => call_at(src, params, METHOD, 0, byte, at + 1),
        _ => Err(Refusal::ByteNotAllowed.at(at)),
    }
}
