// The element bytes: what may follow a code byte in each place of the grammar. Each place decides the byte by one match.
#![tactic(auto, unfolding(crate::specs::Element::form_of, crate::specs::Element::entries))]

ghost use Rattle.std.specs.Prelude.{◌≡◌};
ghost use Rattle.element.specs.Element.{allowed, bare, lookup, form_of};

pub mod types;

// Where in the grammar a node stands.
#[derive(Clone, Copy, Debug, PartialEq, Eq)]
pub enum Place {
    Type,
    // what PTR points to
    Pointee,
    Param,
    RetType,
    Local,
    // what follows PINNED
    Pinned,
    // the first byte of a TypeSpec, the root of kind 0
    TypeSpec,
    // a TypeSpec behind a modifier
    ModifiedSpec,
    // the method under FNPTR
    FnPtrMethod,
    // the roots of kinds 1 to 4
    FieldSig,
    LocalVarSig,
    PropertySig,
    MethodDefSig,
}

// What follows a code byte.
#[derive(Clone, Copy, Debug, PartialEq, Eq)]
pub enum Form {
    // the byte is not allowed in its place; kept, and no Option around the rest, since 01's table gives each byte one of these
    Refused,
    // nothing
    Leaf,
    // a TypeDef or TypeRef token
    Named,
    // a number
    Variable,
    // one child, in that place
    Wrap(Place),
    // a token of any tag, then one child, in that place
    Modified(Place),
    // a count of at least 1, then that many children, in that place
    Counted(Place),
    // a type and a shape
    Array,
    // 11 or 12, a TypeDef or TypeRef token, a count of at least 1, then that many types
    Instance,
    // ParamCount, a return type, then that many parameters, in that place
    Callable(Place),
    // a count of at least 1, then what follows as in Callable
    Generic(Place),
}

// Bare: a type without modifiers.
#[tactic(auto, unfolding(crate::specs::Element::bare))]
fn bare_form(b: u8) -> Form
    ensures { result ≡ lookup bare b }
{
    match b {
        0x02..=0x0E | 0x18 | 0x19 | 0x1C => Form::Leaf,
        0x11 | 0x12 => Form::Named,
        0x13 | 0x1E => Form::Variable,
        0x0F => Form::Wrap(Place::Pointee),
        0x1D => Form::Wrap(Place::Type),
        0x14 => Form::Array,
        0x15 => Form::Instance,
        0x1B => Form::Wrap(Place::FnPtrMethod),
        _ => Form::Refused,
    }
}

// The lead bytes of a method.
#[tactic(auto, unfolding(crate::specs::Element::form_of, crate::specs::Element::entries, crate::specs::Element::leads))]
pub fn fn_ptr_method_form(b: u8) -> Form
    ensures { result ≡ form_of Place.FnPtrMethod b }
{
    match b {
        0x00 | 0x05 | 0x20 | 0x25 | 0x60 | 0x65 => Form::Callable(Place::Param),
        _ => Form::Refused,
    }
}

fn type_form(b: u8) -> Form
    ensures { result ≡ form_of Place.Type b }
{
    match b {
        0x1F | 0x20 => Form::Modified(Place::Type),
        _ => bare_form(b),
    }
}

fn pointee_form(b: u8) -> Form
    ensures { result ≡ form_of Place.Pointee b }
{
    match b {
        0x01 => Form::Leaf,
        0x1F | 0x20 => Form::Modified(Place::Pointee),
        _ => bare_form(b),
    }
}

fn param_form(b: u8) -> Form
    ensures { result ≡ form_of Place.Param b }
{
    match b {
        0x10 => Form::Wrap(Place::Type),
        0x16 => Form::Leaf,
        0x1F | 0x20 => Form::Modified(Place::Param),
        _ => bare_form(b),
    }
}

fn ret_type_form(b: u8) -> Form
    ensures { result ≡ form_of Place.RetType b }
{
    match b {
        0x01 | 0x16 => Form::Leaf,
        0x10 => Form::Wrap(Place::Type),
        0x1F | 0x20 => Form::Modified(Place::RetType),
        _ => bare_form(b),
    }
}

fn local_form(b: u8) -> Form
    ensures { result ≡ form_of Place.Local b }
{
    match b {
        0x10 => Form::Wrap(Place::Type),
        0x16 => Form::Leaf,
        0x1F | 0x20 => Form::Modified(Place::Local),
        0x45 => Form::Wrap(Place::Pinned),
        _ => bare_form(b),
    }
}

fn pinned_form(b: u8) -> Form
    ensures { result ≡ form_of Place.Pinned b }
{
    match b {
        0x10 => Form::Wrap(Place::Type),
        0x1F | 0x20 => Form::Modified(Place::Type),
        _ => bare_form(b),
    }
}

fn type_spec_form(b: u8) -> Form
    ensures { result ≡ form_of Place.TypeSpec b }
{
    match b {
        0x01 | 0x16 => Form::Leaf,
        0x11 | 0x12 => Form::Refused,
        0x1F | 0x20 => Form::Modified(Place::ModifiedSpec),
        _ => bare_form(b),
    }
}

fn modified_spec_form(b: u8) -> Form
    ensures { result ≡ form_of Place.ModifiedSpec b }
{
    match b {
        0x01 | 0x16 => Form::Leaf,
        0x1F | 0x20 => Form::Modified(Place::ModifiedSpec),
        _ => bare_form(b),
    }
}

fn field_sig_form(b: u8) -> Form
    ensures { result ≡ form_of Place.FieldSig b }
{
    match b {
        0x06 => Form::Wrap(Place::Type),
        _ => Form::Refused,
    }
}

fn local_var_sig_form(b: u8) -> Form
    ensures { result ≡ form_of Place.LocalVarSig b }
{
    match b {
        0x07 => Form::Counted(Place::Local),
        _ => Form::Refused,
    }
}

fn property_sig_form(b: u8) -> Form
    ensures { result ≡ form_of Place.PropertySig b }
{
    match b {
        0x08 | 0x28 => Form::Callable(Place::Param),
        _ => Form::Refused,
    }
}

fn method_def_sig_form(b: u8) -> Form
    ensures { result ≡ form_of Place.MethodDefSig b }
{
    match b {
        0x10 | 0x30 | 0x70 => Form::Generic(Place::Param),
        _ => fn_ptr_method_form(b),
    }
}

// What follows the code byte `b` in a place.
#[tactic(auto)]
pub fn form_of(place: Place, b: u8) -> Form
    ensures { result ≡ form_of place b }
{
    match place {
        Place::Type => type_form(b),
        Place::Pointee => pointee_form(b),
        Place::Param => param_form(b),
        Place::RetType => ret_type_form(b),
        Place::Local => local_form(b),
        Place::Pinned => pinned_form(b),
        Place::TypeSpec => type_spec_form(b),
        Place::ModifiedSpec => modified_spec_form(b),
        Place::FnPtrMethod => fn_ptr_method_form(b),
        Place::FieldSig => field_sig_form(b),
        Place::LocalVarSig => local_var_sig_form(b),
        Place::PropertySig => property_sig_form(b),
        Place::MethodDefSig => method_def_sig_form(b),
    }
}

// The same, quick for the roots that are no types. Kept: their arms stand here again, so that one match decides.
#[tactic(auto)]
pub fn signature_form_of(place: Place, b: u8) -> Form
    ensures { result ≡ form_of place b }
{
    match place {
        Place::FieldSig => field_sig_form(b),
        Place::LocalVarSig => local_var_sig_form(b),
        Place::PropertySig => property_sig_form(b),
        Place::MethodDefSig => method_def_sig_form(b),
        _ => form_of(place, b),
    }
}

// Whether a place allows the code byte `b`.
#[tactic(auto)]
pub fn allows(place: Place, b: u8) -> bool
    ensures { result ≡ allowed (form_of place b) }
{
    !matches!(form_of(place, b), Form::Refused)
}
