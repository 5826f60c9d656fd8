// The tapes of a run: the words of each node that gives some.

ghost use Rattle.std.specs.Prelude.{◌≡◌, ◌<◌, IfOk, [], length, map, take};
ghost use Rattle.strc_elab_graph.specs.NodeView.{node_view};
ghost use Rattle.strc_sched_outcome.specs.Tapes.{tape, tape_view};
ghost use Rattle.strc_sched_laws.specs.Machine.{words_at};
ghost use Rattle.strc_sched.specs.Marks.{IsMarks, kept_tapes};
ghost use Rattle.strc_sched_machine.specs.Running.{words_of};
ghost use Rattle.strc_sched.specs.Tapes.{AreMarked};

use crate::outcome::Tape;
use std::alloc::{AllocError, Global};
use std::mem;
use strc_elab_graph::graph::Node;
use strc_elab_graph::tapes::{gives_words, tape_list};
use strc_lex_names::memory::NoMemory;
use strc_sched_orders::limit::NUMBERED_NODES;
use strc_work_meaning::word::Word;

/// How many words each tape had when a round began.
#[derive(Drop)]
pub(crate) struct Marks<'g> {
    nodes: &'g [Node],
    /// The nodes that give words.
    tapes: Vec<usize>,
    /// By node.
    lengths: Vec<usize>,
}

impl<'g> Marks<'g> {
    /// Before the first firing.
    pub(crate) fn new(alloc: Global, nodes: &'g [Node]) -> Result<Marks<'g>, AllocError>
        ensures marks { IfOk result IsMarks }
        ensures nodes { IfOk result (λ marks. marks.nodes.now ≡ nodes.now) }
        ensures none { IfOk result (λ marks. AreMarked (map node_view nodes.now)
            marks.lengths.items []) }
    {
        let tapes = tape_list(alloc, nodes)?;
        let lengths = Vec::from_elem(alloc, 0, nodes.len())?;
        Ok(Marks {
            nodes,
            tapes,
            lengths,
        })
    }

    /// A round begins.
    pub(crate) fn mark(&mut self, words: &[Vec<Word>])
        requires marks { IsMarks self.old }
        requires each { length words.now ≡ length self.old.nodes.now }
        ensures marks { IsMarks self.new }
        ensures nodes { self.new.nodes.now ≡ self.old.nodes.now }
        ensures marked { AreMarked (map node_view self.old.nodes.now) self.new.lengths.items
            (words_of words.now) }
    {
        for place in 0..self.tapes.len() {
            let node = self.tapes[place];
            self.lengths[node] = word_count(words, node);
        }
    }

    /// The tapes with the words that they had when the round began.
    pub(crate) fn tapes(&self, alloc: Global, words: Vec<Vec<Word>>) -> Result<Vec<Tape>, NoMemory>
        requires marks { IsMarks self.now }
        requires each { length words.items ≡ length self.now.nodes.now }
        ensures { IfOk result (λ tapes. map tape_view tapes.items
            ≡ kept_tapes self.now (words_of words.items)) }
    {
        let mut left = words;
        let mut tapes = Vec::new(alloc);
        for node in 0..self.nodes.len() {
            if gives_words(&self.nodes[node]) {
                tapes.push(tape_of(alloc, node, self.lengths[node], &mut left[node])?)?;
            }
        }
        Ok(tapes)
    }
}

/// How many words a node has given.
fn word_count(words: &[Vec<Word>], node: usize) -> usize
    requires { node < length words.now }
    ensures { result ≡ length (words_at (words_of words.now) node) }
{
    words[node].len()
}

/// A node's tape, of its first so many words, which are taken.
fn tape_of(
    alloc: Global,
    node: usize,
    length: usize,
    words: &mut Vec<Word>,
) -> Result<Tape, NoMemory>
    ensures { IfOk result (λ own. tape_view own ≡ tape node (take length words.old.items)) }
{
    if node >= NUMBERED_NODES {
        return Err(NoMemory);
    }
    let mut own = mem::replace(words, Vec::new(alloc));
    own.truncate(length);
    Ok(Tape {
        node: node as u32,
        words: own,
    })
}
