// Takes nothing: this crate is tests alone.
// Gives what no whole program shows: tokens with their places, trees of compositions, limits of
// heights, firings over given windows, closed peeks, filters without state, copies of large codes,
// where filters are refused, graphs of streams, and forms of the command line. There is no theorem
// here; the values are those of the language's rules.
// Stands on strc_lex, strc_parse, strc_work, strc_rate and strc_elab_flattening, and for the
// command line on strc_cli.
#![tactic(auto)]

#[cfg(test)]
mod codes;
#[cfg(test)]
mod graphs;
#[cfg(test)]
mod heights;
#[cfg(test)]
mod lanes;
#[cfg(test)]
mod rates;
#[cfg(test)]
mod refusal_places;
#[cfg(test)]
mod stateless_filters;
#[cfg(test)]
mod texts;
#[cfg(test)]
mod token_kinds;
#[cfg(test)]
mod trees;
#[cfg(test)]
mod words;
