// The nodes of a program's stream in preorder, where they come from, and which of them channels
// join. A program has them also where its flat graph is refused.

ghost use Rattle.std.specs.Prelude.{◌≡◌, ◌+◌, ◌⊎◌, ◌<◌, OnOk, IfOk, All, None, length, position};
ghost use Rattle.std.specs.Prelude.{replicate, not, true, false};
ghost use Rattle.strc_elab_graph.specs.Carriers.{carries_in, splitter_carries};
ghost use Rattle.strc_elab_graph.specs.Graphs.{Joiner};
ghost use Rattle.strc_elab_graph.specs.NodeView.{splitter_view};
ghost use Rattle.strc_cli_source.specs.Joined.{AreJoined, AreKept, IsFollowed, IsNext, IsNextBy};
ghost use Rattle.strc_cli_source.specs.Joined.{joined_count};
ghost use Rattle.strc_cli_source.specs.Preorders.{IsPreorderOf, AddsNodes, AddsLinks, node_count};
ghost use Rattle.strc_cli_source.specs.Preorders.{tree_of, trees_of, nodes_of, row_nodes, size_of};
ghost use Rattle.strc_cli_source.specs.Preorders.{row_size, ends_of, side_exits, Row, node_if};
ghost use Rattle.strc_cli_source.specs.Preorders.{part_name, links_of, side_links};

use crate::nodes::{push_named, push_number};
use std::alloc::Global;
use strc_cli_diagnostics::message::Message;
use strc_elab_graph::graph::Splitter;
use strc_elab_graph::instance::Instance;
use strc_elab_stream::stream::Stream;
use strc_lex_names::memory::NoMemory;
use strc_lex_names::place::Span;
use strc_parse_tree::tree::ItemType;
use strc_work_rules::site::Part;

/// A node.
pub struct Seen {
    pub name: Vec<u8>,
    /// Whether it takes the program's input.
    pub reads: bool,
    /// What a writer has between its quotes.
    pub file: Option<Vec<u8>>,
    pub origin: Origin,
}

/// Where a node comes from.
#[derive(Clone, Copy)]
pub struct Origin {
    /// The name by which its filter is declared.
    pub declared: Option<Span>,
    /// The statement that adds it, or the composite stream of which it is a part; none adds the
    /// main stream.
    pub added: Option<Span>,
    /// Which part of a composite stream it is: its `split` or its `join`.
    pub part: Option<Part>,
}

impl Drop for Seen {
    fn drop(self) {
        let Seen {
            name: _,
            reads: _,
            file: _,
            origin: _,
        } = self;
    }
}

/// The nodes of a stream, and pairs of them that a channel joins.
pub struct Preorder {
    pub nodes: Vec<Seen>,
    links: Vec<(usize, usize)>,
}

impl Drop for Preorder {
    fn drop(self) {
        let Preorder { nodes: _, links: _ } = self;
    }
}

/// The nodes at which a stream's items come and go; none on a side without items.
#[derive(Clone, Copy)]
struct Ends {
    entry: Option<usize>,
    exit: Option<usize>,
}

/// The nodes of a stream.
pub fn preorder_of(alloc: Global, stream: &Stream) -> Result<Preorder, NoMemory>
    ensures { IfOk result (IsPreorderOf stream.now) }
{
    let mut order = Preorder {
        nodes: Vec::new(alloc),
        links: Vec::new(alloc),
    };
    visit(alloc, stream, None, &mut order)?;
    Ok(order)
}

/// Adds the nodes and the channels of a stream; the nodes at which its items come and go.
#[cycle(preorder)]
fn visit(
    alloc: Global,
    stream: &Stream,
    added: Option<Span>,
    order: &mut Preorder,
) -> Result<Ends, NoMemory>
    ensures nodes { OnOk result (AddsNodes order.old order.new
        (nodes_of added (tree_of stream.now))) }
    ensures count { OnOk result (node_count order.new
        ≡ node_count order.old + size_of (tree_of stream.now)) }
    ensures links { OnOk result (AddsLinks order.old order.new
        (links_of (node_count order.old) (tree_of stream.now))) }
    ensures ends { IfOk result (λ ends. ends
        ≡ ends_of (node_count order.old) (tree_of stream.now)) }
{
    match stream {
        Stream::Filter(instance) => order.add_filter(alloc, instance, added),
        Stream::Identity => order.add(alloc, b"Identity", added),
        Stream::FileReader(_) => order.add_reader(alloc, added),
        Stream::FileWriter(text) => order.add_writer(alloc, text.as_bytes(), added),
        Stream::Pipeline(children) => visit_row(alloc, children, added, order),
        Stream::SplitJoin(splitter, children, joiner) => {
            let entry = order.add_part_if(alloc, splitter.is_some(), Part::Split, added)?;
            let exits = visit_sides(alloc, children, added, entry, order)?;
            let exit = order.add_part_if(alloc, joiner.is_some(), Part::Join, added)?;
            order.link_all(&exits, exit)?;
            Ok(Ends { entry, exit })
        }
        Stream::FeedbackLoop(weights, body, splitter, back, _) => {
            let joiner = order.add_part(alloc, Part::Join, added)?;
            let body = visit(alloc, body, added, order)?;
            order.link(Some(joiner), body.entry)?;
            let split = order.add_part(alloc, Part::Split, added)?;
            order.link(body.exit, Some(split))?;
            let back = visit(alloc, back, added, order)?;
            order.link(Some(split), back.entry)?;
            order.link(back.exit, Some(joiner))?;
            Ok(Ends {
                entry: node_if(takes_items(weights), joiner),
                exit: node_if(gives_items(splitter), split),
            })
        }
        Stream::Placed(by, inner) => visit(alloc, inner, by.place.or(added), order),
    }
}

/// Adds those of streams in a row.
#[cycle(preorder)]
fn visit_row(
    alloc: Global,
    streams: &[Stream],
    added: Option<Span>,
    order: &mut Preorder,
) -> Result<Ends, NoMemory>
    ensures nodes { OnOk result (AddsNodes order.old order.new
        (nodes_of added (Row (trees_of streams.now)))) }
    ensures count { OnOk result (node_count order.new
        ≡ node_count order.old + size_of (Row (trees_of streams.now))) }
    ensures links { OnOk result (AddsLinks order.old order.new
        (links_of (node_count order.old) (Row (trees_of streams.now)))) }
    ensures ends { IfOk result (λ ends. ends
        ≡ ends_of (node_count order.old) (Row (trees_of streams.now))) }
{
    let mut entry = None;
    let mut exit = None;
    for stream in streams {
        let ends = visit(alloc, stream, added, order)?;
        order.link(exit, ends.entry)?;
        entry = Some(entry.unwrap_or(ends.entry));
        exit = ends.exit;
    }
    Ok(Ends {
        entry: entry.unwrap_or(None),
        exit,
    })
}

/// Adds those of streams side by side, after a splitter where there is one; the nodes from which
/// their items go.
#[cycle(preorder)]
fn visit_sides(
    alloc: Global,
    streams: &[Stream],
    added: Option<Span>,
    splitter: Option<usize>,
    order: &mut Preorder,
) -> Result<Vec<Option<usize>>, NoMemory>
    ensures nodes { OnOk result (AddsNodes order.old order.new
        (row_nodes added (trees_of streams.now))) }
    ensures count { OnOk result (node_count order.new
        ≡ node_count order.old + row_size (trees_of streams.now)) }
    ensures links { OnOk result (AddsLinks order.old order.new
        (side_links splitter (node_count order.old) (trees_of streams.now))) }
    ensures exits { IfOk result (λ exits. exits.items
        ≡ side_exits (node_count order.old) (trees_of streams.now)) }
{
    let mut exits = Vec::new(alloc);
    for stream in streams {
        let ends = visit(alloc, stream, added, order)?;
        order.link(splitter, ends.entry)?;
        exits.push(ends.exit)?;
    }
    Ok(exits)
}

fn node_if(is: bool, node: usize) -> Option<usize>
    ensures { result ≡ node_if is node }
{
    if is { Some(node) } else { None }
}

/// Whether a loop's joiner takes items from before the loop.
fn takes_items(weights: &[u32]) -> bool
    ensures { result ≡ carries_in (Joiner weights.now) 0 }
{
    match weights.first() {
        Some(weight) => *weight > 0,
        None => false,
    }
}

/// Whether a loop's splitter gives items to what follows the loop.
fn gives_items(splitter: &Splitter) -> bool
    ensures { result ≡ splitter_carries (splitter_view splitter.now) 0 }
{
    match splitter {
        Splitter::Duplicate(carried) => carried.first().copied().unwrap_or(false),
        Splitter::Roundrobin(weights) => takes_items(weights),
    }
}

impl Preorder {
    ghost use Rattle.std.specs.Prelude.{◌≡◌, ◌+◌, ◌<◌, OnOk, IfOk, IfSome, length, [], ◌∷◌};
    ghost use Rattle.std.specs.Prelude.{slice_get};
    ghost use Rattle.strc_cli_diagnostics.specs.Messages.{with_more};
    ghost use Rattle.strc_cli_source.specs.NodeWords.{seen_words};
    ghost use Rattle.std.specs.Prelude.{true, false, None, Some, codes};
    ghost use Rattle.std.specs.Option.{option_map};
    ghost use Rattle.strc_elab_stream.specs.declared.stream.Stream.TheVariants as stream;
    ghost use Rattle.strc_cli_source.specs.Joined.{IsFirstApart};
    ghost use Rattle.strc_cli_source.specs.Preorders.{AddsNodes, AddsLinks, node_count, Node};
    ghost use Rattle.strc_cli_source.specs.Preorders.{nodes_of, ends_of, part_node, part_nodes};
    ghost use Rattle.strc_cli_source.specs.Preorders.{one_if, node_if, link, links_to, tree_of};

    fn push(
        &mut self,
        alloc: Global,
        name: &[u8],
        reads: bool,
        file: Option<Vec<u8>>,
        origin: Origin,
    ) -> Result<usize, NoMemory>
        ensures nodes { OnOk result (AddsNodes self.old self.new (record {
          name = name.now;
          reads = reads;
          file = option_map (λ text. text.items) file;
          added = origin.added;
          part = origin.part;
        } ∷ [])) }
        ensures count { OnOk result (node_count self.new ≡ node_count self.old + 1) }
        ensures links { OnOk result (self.new.links.items ≡ self.old.links.items) }
        ensures number { IfOk result (λ node. node ≡ node_count self.old) }
    {
        let number = self.nodes.len();
        self.nodes.push(Seen {
            name: name.to_vec(alloc)?,
            reads,
            file,
            origin,
        })?;
        Ok(number)
    }

    /// A node that takes items and gives some.
    fn add(&mut self, alloc: Global, name: &[u8], added: Option<Span>) -> Result<Ends, NoMemory>
        ensures nodes { OnOk result (AddsNodes self.old self.new
            (nodes_of added (Node name.now false None true true))) }
        ensures count { OnOk result (node_count self.new ≡ node_count self.old + 1) }
        ensures links { OnOk result (self.new.links.items ≡ self.old.links.items) }
        ensures ends { IfOk result (λ ends. ends
            ≡ ends_of (node_count self.old) (Node name.now false None true true)) }
    {
        let node = self.push(alloc, name, false, None, statement(added))?;
        Ok(Ends {
            entry: Some(node),
            exit: Some(node),
        })
    }

    fn add_reader(&mut self, alloc: Global, added: Option<Span>) -> Result<Ends, NoMemory>
        ensures nodes { OnOk result (AddsNodes self.old self.new
            (nodes_of added (Node (codes "FileReader") true None false true))) }
        ensures count { OnOk result (node_count self.new ≡ node_count self.old + 1) }
        ensures links { OnOk result (self.new.links.items ≡ self.old.links.items) }
        ensures ends { IfOk result (λ ends. ends
            ≡ ends_of (node_count self.old) (Node (codes "FileReader") true None false true)) }
    {
        let node = self.push(alloc, b"FileReader", true, None, statement(added))?;
        Ok(Ends {
            entry: None,
            exit: Some(node),
        })
    }

    fn add_writer(
        &mut self,
        alloc: Global,
        file: &[u8],
        added: Option<Span>,
    ) -> Result<Ends, NoMemory>
        ensures nodes { OnOk result (AddsNodes self.old self.new
            (nodes_of added (Node (codes "FileWriter") false (Some file.now) true false))) }
        ensures count { OnOk result (node_count self.new ≡ node_count self.old + 1) }
        ensures links { OnOk result (self.new.links.items ≡ self.old.links.items) }
        ensures ends { IfOk result (λ ends. ends ≡ ends_of (node_count self.old)
            (Node (codes "FileWriter") false (Some file.now) true false)) }
    {
        let file = file.to_vec(alloc)?;
        let node = self.push(alloc, b"FileWriter", false, Some(file), statement(added))?;
        Ok(Ends {
            entry: Some(node),
            exit: None,
        })
    }

    fn add_filter(
        &mut self,
        alloc: Global,
        instance: &Instance,
        added: Option<Span>,
    ) -> Result<Ends, NoMemory>
        ensures nodes { OnOk result (AddsNodes self.old self.new (nodes_of added
            (tree_of (stream.Filter instance.now)))) }
        ensures count { OnOk result (node_count self.new ≡ node_count self.old + 1) }
        ensures links { OnOk result (self.new.links.items ≡ self.old.links.items) }
        ensures ends { IfOk result (λ ends. ends
            ≡ ends_of (node_count self.old) (tree_of (stream.Filter instance.now))) }
    {
        let (name, declared) = match &instance.name {
            Some(name) => (name.as_bytes(), name.place()),
            None => (b"filter".as_slice(), None),
        };
        let origin = Origin {
            declared,
            added,
            part: None,
        };
        let node = self.push(alloc, name, false, None, origin)?;
        let tree = instance.code.tree();
        Ok(Ends {
            entry: node_if(tree.input == ItemType::Int, node),
            exit: node_if(tree.output == ItemType::Int, node),
        })
    }

    /// A splitter or a joiner.
    fn add_part(
        &mut self,
        alloc: Global,
        part: Part,
        added: Option<Span>,
    ) -> Result<usize, NoMemory>
        ensures nodes { OnOk result (AddsNodes self.old self.new (part_node part added ∷ [])) }
        ensures count { OnOk result (node_count self.new ≡ node_count self.old + 1) }
        ensures links { OnOk result (self.new.links.items ≡ self.old.links.items) }
        ensures number { IfOk result (λ node. node ≡ node_count self.old) }
    {
        let origin = Origin {
            declared: None,
            added,
            part: Some(part),
        };
        self.push(alloc, part_name(part), false, None, origin)
    }

    /// A splitter or a joiner, where there is one.
    fn add_part_if(
        &mut self,
        alloc: Global,
        is: bool,
        part: Part,
        added: Option<Span>,
    ) -> Result<Option<usize>, NoMemory>
        ensures nodes { OnOk result (AddsNodes self.old self.new (part_nodes is part added)) }
        ensures count { OnOk result (node_count self.new ≡ node_count self.old + one_if is) }
        ensures links { OnOk result (self.new.links.items ≡ self.old.links.items) }
        ensures number { IfOk result (λ node. node ≡ node_if is (node_count self.old)) }
    {
        if is {
            Ok(Some(self.add_part(alloc, part, added)?))
        } else {
            Ok(None)
        }
    }

    /// A channel, where both its ends have items.
    fn link(&mut self, source: Option<usize>, target: Option<usize>) -> Result<(), NoMemory>
        ensures nodes { self.new.nodes ≡ self.old.nodes }
        ensures links { OnOk result (AddsLinks self.old self.new (link source target)) }
    {
        if let (Some(source), Some(target)) = (source, target) {
            self.links.push((source, target))?;
        }
        Ok(())
    }

    /// A channel from each source, where both its ends have items.
    fn link_all(&mut self, sources: &[Option<usize>], target: Option<usize>) -> Result<(), NoMemory>
        ensures nodes { self.new.nodes ≡ self.old.nodes }
        ensures links { OnOk result (AddsLinks self.old self.new
            (links_to target sources.now)) }
    {
        for source in sources {
            self.link(*source, target)?;
        }
        Ok(())
    }

    /// The first node that no channels join with node 0.
    pub fn first_apart(&self, alloc: Global) -> Result<Option<usize>, NoMemory>
        ensures apart { IfOk result (IsFirstApart self.now) }
        ensures within { IfOk result (λ found. IfSome found (λ node.
            node < length self.now.nodes.items)) }
    {
        if self.nodes.is_empty() {
            return Ok(None);
        }
        let mut joined = unmarked(alloc, self.nodes.len())?;
        joined[0] = true;
        while spread(&mut joined, &self.links) {}
        Ok(first_left(&joined))
    }

    /// A node's name and number, and its path, where it is known.
    pub fn push_name(
        &self,
        message: &mut Message,
        paths: &[Vec<u8>],
        node: usize,
    ) -> Result<(), NoMemory>
        ensures { OnOk result (message.new ≡ with_more message.old (seen_words self.now
            (option_map (λ p. p.items) (slice_get paths.now node)) node)) }
    {
        match self.nodes.get(node) {
            Some(seen) => {
                push_named(message, &seen.name, paths, node)?;
                Ok(())
            }
            None => {
                push_number(message, node)?;
                Ok(())
            }
        }
    }
}

/// The name of a splitter or a joiner.
fn part_name(part: Part) -> &'static [u8]
    ensures { result.now ≡ part_name part }
{
    if part == Part::Split {
        b"split"
    } else {
        b"join"
    }
}

/// Where a node comes from that is added as it is.
fn statement(added: Option<Span>) -> Origin
    ensures added { result.added ≡ added }
    ensures part { result.part ≡ None }
{
    Origin {
        declared: None,
        added,
        part: None,
    }
}

/// As many marks as nodes, none of them set.
fn unmarked(alloc: Global, count: usize) -> Result<Vec<bool>, NoMemory>
    ensures { IfOk result (λ marks. marks.items ≡ replicate count false) }
{
    Ok(Vec::from_elem(alloc, false, count)?)
}

/// Joins what a channel joins with a joined node. Whether there was one.
fn spread(joined: &mut Vec<bool>, links: &[(usize, usize)]) -> bool
    ensures length { length joined.new.items ≡ length joined.old.items }
    ensures kept { AreKept joined.old.items joined.new.items }
    ensures joined { AreJoined links.now joined.old.items
        → AreJoined links.now joined.new.items }
    ensures more { result ≡ true → joined_count joined.old.items < joined_count joined.new.items }
    ensures all { result ≡ false → All (IsFollowed joined.new.items) links.now }
{
    let mut changed = false;
    for (source, target) in links {
        if join_ends(joined, *source, *target) {
            changed = true;
        }
    }
    changed
}

/// Joins each end of a channel where the other is joined. Whether one wasn't before.
fn join_ends(joined: &mut Vec<bool>, source: usize, target: usize) -> bool
    ensures next { result ≡ true → IsNextBy joined.old.items joined.new.items source target
        ⊎ IsNextBy joined.old.items joined.new.items target source }
    ensures kept { result ≡ false → joined.new.items ≡ joined.old.items }
    ensures followed { result ≡ false → IsFollowed joined.old.items (source, target) }
{
    join_next(joined, source, target) || join_next(joined, target, source)
}

/// Joins a node that a channel joins with a joined one. Whether it wasn't before.
fn join_next(joined: &mut Vec<bool>, near: usize, far: usize) -> bool
    ensures next { result ≡ true → IsNextBy joined.old.items joined.new.items near far }
    ensures kept { result ≡ false → joined.new.items ≡ joined.old.items }
    ensures followed { result ≡ false → IsNext joined.old.items near far → ⊥ }
{
    if near < joined.len() && far < joined.len() && joined[near] && !joined[far] {
        joined[far] = true;
        return true;
    }
    false
}

/// The first that isn't joined.
fn first_left(joined: &[bool]) -> Option<usize>
    ensures { result ≡ position (λ is_joined. not is_joined) joined.now }
{
    joined.iter().position(|is_joined| !*is_joined)
}
