// The part of a text that breaks a rule: the statement that was refused, or a name or a token.

ghost use Rattle.std.specs.Prelude.{◌≡◌};
ghost use Rattle.std.specs.Option.{option_map};
ghost use Rattle.strc_cli_places.specs.Parts.{declaration_at};
ghost use Rattle.strc_cli_source.specs.Spelling.{between};
ghost use Rattle.strc_cli_messages.specs.Sites as spec;

use strc_cli_places::known::Known;
use strc_lex::token::Token;
use strc_lex_names::place::Span;
use strc_parse_tree::tree::Decl;
use strc_run_refusal::placed_refusal::PlacedRefusal;
use strc_run_refusal::refusal::Refusal;
use strc_work_rules::site::Site;

/// Where a refusal's rule is broken, and which rule of types, kinds and parts it is.
pub(crate) fn site_of(known: Known<'_>, placed: &PlacedRefusal) -> Site
    ensures { result ≡ spec.site_of known.entry.source.text.now known.entry.source.tokens.now
        (option_map (λ p. p.now) known.entry.program) placed.now }
{
    let PlacedRefusal {
        refusal,
        site,
        statement,
        ..
    } = placed;
    let place = match statement {
        Some(statement) => Some(part_of(known, refusal, *statement, site.place)),
        None => unread_at(known.source.tokens, refusal).or(site.place),
    };
    Site {
        place,
        mismatch: site.mismatch,
        trapped: site.trapped,
    }
}

/// Where a text can't be read: the byte at which no token begins, or the token that can't follow.
fn unread_at(tokens: &[Token], refusal: &Refusal) -> Option<Span>
    ensures { result ≡ spec.unread_at tokens.now refusal.now }
{
    match refusal {
        Refusal::Lex { at } => Some(before(*at)),
        Refusal::Parse { token } => Some(token_place(tokens, *token)),
        _ => None,
    }
}

/// The place of a token, by its number; where the text ends too soon it is after the last one.
fn token_place(tokens: &[Token], token: usize) -> Span
    ensures { result ≡ spec.token_place tokens.now token }
{
    match (tokens.get(token), tokens.last()) {
        (Some(found), _) => found.span,
        (None, Some(last)) => before(last.span.end),
        (None, None) => before(0),
    }
}

/// The place before a byte.
fn before(byte: usize) -> Span
    ensures { result ≡ spec.before byte }
{
    Span {
        start: byte,
        end: byte,
    }
}

/// The place of a name that is known to break the rule; of another rule the statement.
fn part_of(known: Known<'_>, refusal: &Refusal, statement: Span, name: Option<Span>) -> Span
    ensures { result ≡ spec.part_of known.entry.source.text.now
        (option_map (λ p. p.now) known.entry.program) refusal.now statement name }
{
    match name {
        Some(name) if is_name(known, refusal, statement, name) => name,
        _ => statement,
    }
}

/// Whether a rule can be broken by what is at this place, and not by the whole statement: a name
/// within it, or one in the head of the declaration whose own text breaks the rule.
fn is_name(known: Known<'_>, refusal: &Refusal, statement: Span, place: Span) -> bool
    ensures { result ≡ spec.is_name known.entry.source.text.now
        (option_map (λ p. p.now) known.entry.program) refusal.now statement place }
{
    match refusal {
        Refusal::UnknownName { .. } => is_within(place, statement),
        Refusal::TypeMismatch { stream } => {
            is_within(place, statement) || is_in_head_of(known, *stream, place)
        }
        Refusal::BadWeights { stream } => is_in_head_of(known, *stream, place),
        Refusal::ConstFault { .. } => {
            known.declaration_named(known.source.bytes(place)).is_some()
        }
        _ => false,
    }
}

/// Whether a place is within another.
fn is_within(inner: Span, outer: Span) -> bool
    ensures { result ≡ spec.is_within inner outer }
{
    outer.start <= inner.start && inner.end <= outer.end
}

/// Whether the name of a declaration, by its number, or of one of its parameters is at a place.
fn is_in_head_of(known: Known<'_>, stream: usize, place: Span) -> bool
    ensures { result ≡ spec.is_in_head (between known.entry.source.text.now place)
        (declaration_at (option_map (λ p. p.now) known.entry.program) stream) }
{
    match known.declarations().get(stream) {
        Some(declaration) => is_in_head(declaration, known.source.bytes(place)),
        None => false,
    }
}

/// Whether these bytes are the name of a declaration, or of one of its parameters.
fn is_in_head(declaration: &Decl, bytes: &[u8]) -> bool
    ensures { result ≡ spec.is_declared_name bytes.now declaration.now }
{
    declaration.name.as_bytes() == bytes || is_parameter(declaration, bytes)
}

/// Whether a declaration has a parameter of this name.
fn is_parameter(declaration: &Decl, bytes: &[u8]) -> bool
    ensures { result ≡ spec.is_parameter bytes.now declaration.now }
{
    match &declaration.parameters {
        Some(parameters) => parameters.iter().any(|name| name.as_bytes() == bytes),
        None => false,
    }
}
