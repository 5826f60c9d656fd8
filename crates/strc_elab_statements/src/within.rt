// The stream in which a rule is broken.

use std::alloc::Global;
use std::marker::Model;
use strc_elab_stream::added::Added;
use strc_lex_names::memory::NoMemory;
use strc_lex_names::name::Name;
use strc_lex_names::place::Span;
use strc_work_meaning::constants::Constants;

/// The innermost declared stream whose text breaks a rule, as it is added, where that is known.
/// Contracts see nothing of it. It is boxed, so that an error takes little room of the stack, of
/// which the deepest texts take much.
#[derive(Drop)]
pub struct Within {
    stream: Option<Box<Added>>,
}

impl Model for Within {
    ghost Value = { Unit {0} };

    ghost view = { λ w. tt };
}

impl Within {
    /// No stream is known.
    pub fn unknown() -> Within {
        Within { stream: None }
    }

    /// The stream of this name, whose parameters are these constants. None is known of one without
    /// a name, and where memory runs out.
    pub fn of(alloc: Global, name: Option<&Name>, constants: &Constants) -> Within {
        if name.is_none() {
            return Within::unknown();
        }
        match boxed(alloc, name, constants) {
            Ok(stream) => Within {
                stream: Some(stream),
            },
            Err(NoMemory) => Within::unknown(),
        }
    }

    /// This stream; or the other one, where none was known.
    pub fn or(self, other: Within) -> Within {
        let Within { stream } = self;
        match stream {
            Some(stream) => Within {
                stream: Some(stream),
            },
            None => other,
        }
    }

    /// The stream, where it is known.
    pub fn stream(&self) -> Option<&Added> {
        match &self.stream {
            Some(stream) => Some(stream),
            None => None,
        }
    }
}

/// How a stream is added by this name, with these constants as its arguments.
fn boxed(
    alloc: Global,
    name: Option<&Name>,
    constants: &Constants,
) -> Result<Box<Added>, NoMemory> {
    Ok(Box::new(alloc, added_by(alloc, None, name, constants)?)?)
}

/// How this statement adds a stream: by its name, where it has one, and its arguments.
pub fn added_by(
    alloc: Global,
    here: Option<Span>,
    name: Option<&Name>,
    constants: &Constants,
) -> Result<Added, NoMemory> {
    let Some(name) = name else {
        return Ok(Added {
            place: here,
            name: None,
            arguments: Vec::new(alloc),
        });
    };
    Ok(Added {
        place: here,
        name: Some(name.copy()?),
        arguments: values_of(alloc, constants)?,
    })
}

/// The values of constants, in the order in which they were pushed.
fn values_of(alloc: Global, constants: &Constants) -> Result<Vec<i32>, NoMemory> {
    let mut values = Vec::with_capacity(alloc, constants.len())?;
    for number in 0..constants.len() {
        let (_, value) = constants.at(number);
        values.push(value)?;
    }
    Ok(values)
}
