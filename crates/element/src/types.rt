// The places of a type: which they are, and the form of a code byte in them, decided by the byte first.
ghost use Rattle.std.specs.Prelude.{◌≡◌, true, cond};
ghost use Rattle.element.specs.Element.{allowed, form_of, is_type_place};

use crate::{Form, Place};

// Whether a place is one of a type.
#[tactic(auto, unfolding(crate::specs::Element::form_of, crate::specs::Element::entries, crate::specs::Element::leads))]
pub fn is_type_place(place: Place) -> bool
    ensures { result ≡ is_type_place place }
{
    !matches!(
        place,
        Place::FnPtrMethod
            | Place::FieldSig
            | Place::LocalVarSig
            | Place::PropertySig
            | Place::MethodDefSig
    )
}

// The place behind a modifier that stands in a place of a type.
// Kept: all places are listed, since the match is then a table; with `_` the reader takes 3 to 6 in a hundred more instructions.
#[tactic(auto, unfolding(crate::specs::Element::form_of, crate::specs::Element::entries, crate::specs::Element::leads))]
fn behind(place: Place) -> Place
    requires { is_type_place place ≡ true }
    ensures { Form.Modified result ≡ form_of place 0x1F }
{
    match place {
        Place::Type => Place::Type,
        Place::Pointee => Place::Pointee,
        Place::Param => Place::Param,
        Place::RetType => Place::RetType,
        Place::Local => Place::Local,
        Place::Pinned => Place::Type,
        Place::TypeSpec => Place::ModifiedSpec,
        Place::ModifiedSpec => Place::ModifiedSpec,
        Place::FnPtrMethod => Place::Type,
        Place::FieldSig => Place::Type,
        Place::LocalVarSig => Place::Type,
        Place::PropertySig => Place::Type,
        Place::MethodDefSig => Place::Type,
    }
}

// The form of a byte that only some places allow.
#[tactic(auto)]
fn where_allowed(place: Place, b: u8, form: Form) -> Form
    ensures { result ≡ cond (allowed (form_of place b)) form Form.Refused }
{
    if crate::allows(place, b) {
        return form;
    }
    Form::Refused
}

// The form of CLASS and VALUETYPE, which are refused as the first byte of a TypeSpec.
// Kept: all places are listed, as in `behind`.
#[tactic(auto, unfolding(crate::specs::Element::form_of, crate::specs::Element::entries, crate::specs::Element::bare, crate::specs::Element::leads))]
fn named_form(place: Place) -> Form
    requires { is_type_place place ≡ true }
    ensures { result ≡ form_of place 0x11 }
{
    match place {
        Place::Type => Form::Named,
        Place::Pointee => Form::Named,
        Place::Param => Form::Named,
        Place::RetType => Form::Named,
        Place::Local => Form::Named,
        Place::Pinned => Form::Named,
        Place::TypeSpec => Form::Refused,
        Place::ModifiedSpec => Form::Named,
        Place::FnPtrMethod => Form::Refused,
        Place::FieldSig => Form::Refused,
        Place::LocalVarSig => Form::Refused,
        Place::PropertySig => Form::Refused,
        Place::MethodDefSig => Form::Refused,
    }
}

// What follows the code byte `b` in a place of a type: what Bare allows means the same in all of them.
// Kept: Bare's arms stand here again, since one match is one jump; with a call of Bare's own function behind it the reader is slower.
pub fn type_form_of(place: Place, b: u8) -> Form
    requires { is_type_place place ≡ true }
    ensures { result ≡ form_of place b }
{
    match b {
        0x02..=0x0E | 0x18 | 0x19 | 0x1C => Form::Leaf,
        0x11 | 0x12 => named_form(place),
        0x13 | 0x1E => Form::Variable,
        0x0F => Form::Wrap(Place::Pointee),
        0x1D => Form::Wrap(Place::Type),
        0x14 => Form::Array,
        0x15 => Form::Instance,
        0x1B => Form::Wrap(Place::FnPtrMethod),
        0x1F | 0x20 => Form::Modified(behind(place)),
        0x01 | 0x16 => where_allowed(place, b, Form::Leaf),
        0x10 => where_allowed(place, b, Form::Wrap(Place::Type)),
        0x45 => where_allowed(place, b, Form::Wrap(Place::Pinned)),
        _ => Form::Refused,
    }
}
