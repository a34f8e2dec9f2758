// A type up to its children.
ghost use Rattle.std.specs.Prelude.{◌≡◌, true, ◌+◌, ◌<◌, length};
ghost use Rattle.element.specs.Element.{is_type_place};
ghost use Rattle.opening.specs.Open.{valued_of, modified_of, listed_of, wrapped_of, instance_of, instance_at, head_at, open_at};

use crate::{Head, head_of, placed};
use answer::refusal::{Fault, Refusal};
use element::types::{is_type_place, type_form_of};
use element::{Form, Place};
use grammar::Position;
use number::checked::{checked_at, count_at};
use number::token::{Counts, MOD_TAGS, TYPE_TAGS, token_at};
use number::{MAX_NUMBER, Number};

// A type before its children: without children; with one, in a place of a type; with some, each a Type; FNPTR, before its method; an array, whose
// numbers stand behind its first child.
#[derive(Clone, Copy, Debug, PartialEq, Eq)]
pub enum Open {
    Leaf {
        head: Head,
        next: usize,
    },
    One {
        head: Head,
        child: Place,
        next: usize,
    },
    List {
        head: Head,
        next: usize,
    },
    FnPtr {
        head: Head,
        next: usize,
    },
    Array {
        kind: u32,
    },
}

// A number or token, and no children.
fn valued(kind: u32, number: Number) -> Open
    ensures { result ≡ valued_of kind number.value number.next }
{
    Open::Leaf {
        head: head_of(kind, number.value, 0, 0),
        next: number.next,
    }
}

// A modifier: a token, then one child.
fn modified(kind: u32, child: Place, token: Number) -> Open
    ensures { result ≡ modified_of kind child token.value token.next }
{
    Open::One {
        head: head_of(kind, token.value, 0, 1),
        child,
        next: token.next,
    }
}

// Types, which stand at `next`, as many as there are children.
fn listed(head: Head, next: usize) -> Open
    ensures { result ≡ listed_of head next }
{
    if head.children == 1 {
        return Open::One {
            head,
            child: Place::Type,
            next,
        };
    }
    Open::List { head, next }
}

// GENERICINST: 11 or 12, a TypeDef or TypeRef token, a count of at least 1, then that many types.
fn instance_at(src: &[u8], counts: Counts, kind: u32, at: usize) -> Result<Open, Fault>
    requires { at < length src.now }
    ensures { result ≡ instance_at counts src.now kind at }
{
    let from = at + 1;
    if src.len() <= from {
        return Err(Refusal::BytesEnd.at(from));
    }
    let which = src[from];
    match which {
        0x11..=0x12 => instance_of(src, counts, kind, which, at),
        _ => Err(Refusal::ByteNotAllowed.at(from)),
    }
}

// What follows the 11 or 12 of a GENERICINST.
fn instance_of(src: &[u8], counts: Counts, kind: u32, which: u8, at: usize) -> Result<Open, Fault>
    requires { at + 1 < length src.now }
    ensures { result ≡ instance_of counts src.now kind which at }
{
    let from = at + 2;
    let token = placed(token_at(src, from, TYPE_TAGS, counts), from)?;
    let count = placed(count_at(src, token.next, 1, MAX_NUMBER), token.next)?;
    let head = head_of(kind, token.value, which as u32, count.value);
    Ok(listed(head, count.next))
}

// One child, which stands at `from`: a type, or a method.
fn wrapped(kind: u32, child: Place, from: usize) -> Open
    ensures { result ≡ wrapped_of kind child from }
{
    let head = head_of(kind, 0, 0, 1);
    if is_type_place(child) {
        return Open::One {
            head,
            child,
            next: from,
        };
    }
    Open::FnPtr { head, next: from }
}

// What follows a type's code byte, which is its kind.
fn head_at(src: &[u8], counts: Counts, form: Form, byte: u8, at: usize) -> Result<Open, Fault>
    requires { at < length src.now }
    ensures { result ≡ head_at form counts src.now byte at }
{
    let from = at + 1;
    let kind = byte as u32;
    match form {
        Form::Leaf => Ok(Open::Leaf {
            head: head_of(kind, 0, 0, 0),
            next: from,
        }),
        Form::Named => {
            let token = placed(token_at(src, from, TYPE_TAGS, counts), from)?;
            Ok(valued(kind, token))
        }
        Form::Variable => {
            let number = placed(checked_at(src, from), from)?;
            Ok(valued(kind, number))
        }
        Form::Wrap(child) => Ok(wrapped(kind, child, from)),
        Form::Modified(child) => {
            let token = placed(token_at(src, from, MOD_TAGS, counts), from)?;
            Ok(modified(kind, child, token))
        }
        Form::Array => Ok(Open::Array { kind }),
        Form::Instance => instance_at(src, counts, kind, at),
        _ => Err(Refusal::ByteNotAllowed.at(at)),
    }
}

// A type up to its children.
pub fn open_at(
    src: &[u8],
    counts: Counts,
    place: Place,
    here: Position,
    d: usize,
) -> Result<Open, Fault>
    requires { is_type_place place ≡ true }
    ensures { result ≡ open_at d counts src.now place here.at here.node }
{
    let byte = crate::code_at(src, place, here, d)?;
    let form = type_form_of(place, byte);
    head_at(src, counts, form, byte, here.at)
}
