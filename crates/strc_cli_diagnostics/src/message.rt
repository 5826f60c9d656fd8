// What a person reads of a refusal, a fault or a doubt, as a value: the part of the text that it is
// about, one sentence, and where it helps a hint.

ghost use Rattle.std.specs.Prelude.{◌≡◌, ◌++◌, codes, decimal, option_map, OnOk};
ghost use Rattle.strc_cli_diagnostics.specs.Messages.{about, hinting, new_message, with_more};

use itoa::Buffer;
use std::alloc::{AllocError, Global};
use std::marker::Model;
use strc_lex_names::place::Span;

/// What a message is about, and how it is announced.
#[derive(Clone, Copy)]
pub enum MessageKind {
    /// What is wrong with a program, or with its run.
    Plain,
    /// What may be a mistake in a program.
    Warning,
    /// A remark on a whole program.
    Note,
    /// What is wrong with the numbers of standard input.
    Input,
    /// What is wrong with the words of the command line.
    Usage,
}

/// What a message says, as it is built: a sentence about a part of a text, where there is one, and
/// where it helps a hint.
#[derive(Drop)]
pub struct Message {
    kind: MessageKind,
    place: Option<Span>,
    sentence: Vec<u8>,
    hint: Option<Vec<u8>>,
    /// Where the bytes of a hint come from.
    alloc: Global,
}

impl Model for Message {
    ghost use Rattle.std.specs.Option.{option_map};
    ghost use Rattle.strc_cli_diagnostics.specs.Messages.{MessageView};

    ghost Value = { MessageView };

    ghost view = { λ m. record {
      kind = m.kind;
      place = m.place;
      sentence = m.sentence.items;
      hint = option_map (λ hint. hint.items) m.hint;
    } };
}

impl Message {
    /// A message that says nothing yet.
    pub fn new(alloc: Global) -> Message
        ensures { result ≡ new_message }
    {
        Message {
            kind: MessageKind::Plain,
            place: None,
            sentence: Vec::new(alloc),
            hint: None,
            alloc,
        }
    }

    /// The same message, of this kind, and about a part of the text where there is one.
    pub fn about(self, kind: MessageKind, place: Option<Span>) -> Message
        ensures { result ≡ about kind place self }
    {
        Message {
            kind,
            place,
            ..self
        }
    }

    /// What it is about.
    pub fn kind(&self) -> MessageKind
        ensures { result ≡ self.now.kind }
    {
        self.kind
    }

    /// The part of the text that it is about, where there is one.
    pub fn place(&self) -> Option<Span>
        ensures { result ≡ self.now.place }
    {
        self.place
    }

    /// What it says, in one sentence.
    pub fn sentence(&self) -> &[u8]
        ensures { result.now ≡ self.now.sentence }
    {
        &self.sentence
    }

    /// How what is wrong can be mended, where that is known.
    pub fn advice(&self) -> Option<&[u8]>
        ensures { option_map (λ hint. hint.now) result ≡ self.now.hint }
    {
        match &self.hint {
            Some(hint) => Some(hint),
            None => None,
        }
    }

    /// More of the sentence, or of the hint where one has begun.
    pub fn add(&mut self, bytes: &[u8]) -> Result<(), AllocError>
        ensures { OnOk result (self.new ≡ with_more self.old bytes.now) }
    {
        match &mut self.hint {
            Some(hint) => hint.extend_from_slice(bytes),
            None => self.sentence.extend_from_slice(bytes),
        }
    }

    /// A number in decimal.
    pub fn number(&mut self, number: u64) -> Result<(), AllocError>
        ensures { OnOk result (self.new ≡ with_more self.old (decimal number)) }
    {
        let mut buffer = Buffer::new();
        self.add(buffer.format(number).as_bytes())
    }

    /// A name or a token as it is written, in quotes.
    #[tactic(auto, using(crate::proofs::Messages::more_in_three))]
    pub fn quoted(&mut self, name: &[u8]) -> Result<(), AllocError>
        ensures { OnOk result (self.new
            ≡ with_more self.old (codes "`" ++ name.now ++ codes "`")) }
    {
        self.add(b"`")?;
        self.add(name)?;
        self.add(b"`")
    }

    /// A hint begins: what is added from here on is the hint's.
    pub fn hint(&mut self) -> Result<(), AllocError>
        ensures { OnOk result (self.new ≡ hinting self.old) }
    {
        match &mut self.hint {
            Some(hint) => hint.extend_from_slice(b"\nhint: "),
            None => {
                self.hint = Some(Vec::new(self.alloc));
                Ok(())
            }
        }
    }
}
