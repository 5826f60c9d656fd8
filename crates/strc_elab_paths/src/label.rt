// What a stream is called.

ghost use Rattle.std.specs.Prelude.{◌≡◌, ◌++◌, [], IfOk, OnOk, flat_map};
ghost use Rattle.std.specs.Fmt.{signed_decimal};
ghost use Rattle.strc_elab_paths.specs.Labels as spec;

use itoa::Buffer;
use std::alloc::{AllocError, Global};
use std::marker::Model;
use strc_elab_stream::added::Added;

/// What a person calls a stream: its name with the values of its parameters, or its kind.
/// Contracts see the list of its bytes.
#[derive(Drop)]
pub struct Label {
    bytes: Vec<u8>,
}

impl Model for Label {
    ghost use Rattle.std.specs.Prelude.{List, ℕ};

    ghost Value = { List ℕ };

    ghost view = { λ l. l.bytes.items };
}

impl Label {
    /// The label of a stream of this name, or of this kind where the name has no bytes.
    pub(crate) fn new(alloc: Global, name: &[u8], kind: &[u8]) -> Result<Label, AllocError>
        ensures { IfOk result (λ label. label ≡ spec.named_or name.now kind.now) }
    {
        let bytes = if name.is_empty() { kind } else { name };
        Ok(Label {
            bytes: bytes.to_vec(alloc)?,
        })
    }

    /// The bytes of the label.
    pub fn as_bytes(&self) -> &[u8]
        ensures { result.now ≡ self.now }
    {
        self.bytes.as_slice()
    }
}

/// The name of a stream that is added so, with the values of its parameters where it has some; no
/// bytes where it has no name.
pub fn name_of(alloc: Global, added: &Added) -> Result<Vec<u8>, AllocError>
    ensures { IfOk result (λ name. name.items ≡ spec.name_of added.now) }
{
    let mut name = Vec::new(alloc);
    if let Some(declared) = &added.name {
        name.extend_from_slice(declared.as_bytes())?;
        push_arguments(&mut name, &added.arguments)?;
    }
    Ok(name)
}

/// Adds the values of parameters in parentheses, where there are some.
fn push_arguments(text: &mut Vec<u8>, arguments: &[i32]) -> Result<(), AllocError>
    ensures { OnOk result (text.new.items ≡ text.old.items ++ spec.arguments_text arguments.now) }
{
    let Some((first, later)) = arguments.split_first() else {
        return Ok(());
    };
    text.extend_from_slice(b"(")?;
    push_value(text, *first)?;
    push_later(text, later)?;
    text.extend_from_slice(b")")?;
    Ok(())
}

/// Adds the values after the first one.
fn push_later(text: &mut Vec<u8>, later: &[i32]) -> Result<(), AllocError>
    ensures { OnOk result (text.new.items ≡ text.old.items
        ++ flat_map spec.later_text later.now) }
{
    for value in later {
        push_after(text, *value)?;
    }
    Ok(())
}

/// Adds a value after another one.
fn push_after(text: &mut Vec<u8>, value: i32) -> Result<(), AllocError>
    ensures { OnOk result (text.new.items ≡ text.old.items ++ spec.later_text value) }
{
    text.extend_from_slice(b", ")?;
    push_value(text, value)
}

/// Adds a value in decimal.
fn push_value(text: &mut Vec<u8>, value: i32) -> Result<(), AllocError>
    ensures { OnOk result (text.new.items ≡ text.old.items ++ signed_decimal value) }
{
    let mut buffer = Buffer::new();
    text.extend_from_slice(buffer.format(value).as_bytes())?;
    Ok(())
}
