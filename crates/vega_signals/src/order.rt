// The signals of an object in an order in which each comes after those that it needs, as far as there is one. Nothing is promised of it: who
// uses it tests what is needed.
use crate::extents::extent_asked;
use crate::needs::Needs;
use crate::placed::{no_numbers, number_under, put_number};
use crate::rounds::update_of;
use expr_reading::parameters_of;
use expr_syntax::Expr;
use std::alloc::Global;
use std::collections::BTreeMap;
use text_kit::{OutOfMemory, Seq, Text};
use vega_spec::{BinExtent, DataSet, Extent, Signal, Transform};

// The signals of an object that aren't given, in an order, without those that need themselves and those that need such.
#[derive(Drop)]
pub(crate) struct Order<'a> {
    // Their places by their names, counted from 1.
    pub(crate) places: BTreeMap<String, usize>,
    // Those that are computed, in their order.
    pub(crate) computed: Seq<&'a Signal>,
    // How many are of extents.
    pub(crate) extent_count: usize,
}

// What a node of the graph of needs is.
#[derive(Clone, Copy)]
enum Node<'a> {
    // A signal that is computed.
    Computed(&'a Signal),
    // The signal of an extent.
    Extent(&'a Extent),
    // The rows that a transform leaves.
    Rows,
}

// The graph of needs of an object.
#[derive(Drop)]
struct Graph<'a> {
    needs: Needs,
    // What each node is.
    nodes: Seq<Node<'a>>,
    // The nodes of signals by their names, counted from 1.
    signals: BTreeMap<String, usize>,
    // The nodes of the rows of data sets by their names, counted from 1; 0 where they are the rows of a source.
    lists: BTreeMap<String, usize>,
}

impl<'a> Graph<'a> {
    // No nodes.
    fn new(alloc: Global) -> Graph<'a> {
        Graph {
            needs: Needs::new(alloc),
            nodes: Seq::new(alloc),
            signals: no_numbers(alloc),
            lists: no_numbers(alloc),
        }
    }

    // Adds a node, and gives its number counted from 1.
    fn add(&mut self, node: Node<'a>) -> Result<usize, OutOfMemory> {
        self.nodes.push(node)?;
        Ok(self.needs.add()?.saturating_add(1))
    }

    // A node needs another, if there are such. Both are counted from 1.
    fn tell(&mut self, node: usize, needed: usize) -> Result<(), OutOfMemory> {
        if node == 0 || needed == 0 {
            return Ok(());
        }
        self.needs
            .tell(node.saturating_sub(1), needed.saturating_sub(1))
    }

    // Adds the node of a signal.
    fn add_signal(&mut self, name: &Text, node: Node<'a>) -> Result<(), OutOfMemory> {
        let number = self.add(node)?;
        put_number(&mut self.signals, name, number)
    }

    // Adds the nodes of the signals that are computed.
    fn add_computed(&mut self, signals: &'a [Signal]) -> Result<(), OutOfMemory> {
        for signal in signals {
            if update_of(signal).is_some() {
                self.add_signal(&signal.name, Node::Computed(signal))?;
            }
        }
        Ok(())
    }

    // Adds the nodes of the signals of a data set's extents.
    fn add_extents(&mut self, set: &'a DataSet) -> Result<(), OutOfMemory> {
        for transform in vega_lists::transforms_of(set) {
            if let Some(e) = extent_asked(transform) {
                self.add_signal(&e.signal, Node::Extent(e))?;
            }
        }
        Ok(())
    }

    // A node needs the signals of these names.
    fn tell_names(&mut self, node: usize, names: &[&str]) -> Result<(), OutOfMemory> {
        for name in names {
            let needed = number_under(&self.signals, name);
            self.tell(node, needed)?;
        }
        Ok(())
    }

    // A node needs the signals that an expression mentions.
    fn tell_expression(&mut self, alloc: Global, node: usize, e: &Expr) -> Result<(), OutOfMemory> {
        let names = parameters_of(alloc, e)?;
        self.tell_names(node, names.as_slice())
    }

    // A computed signal needs what its update mentions.
    fn tell_computed(&mut self, alloc: Global, signal: &Signal) -> Result<(), OutOfMemory> {
        let node = number_under(&self.signals, signal.name.as_str());
        match update_of(signal) {
            Some(update) => self.tell_expression(alloc, node, update),
            None => Ok(()),
        }
    }

    // A node needs what a transform reads beside the rows before it.
    fn tell_transform(
        &mut self,
        alloc: Global,
        node: usize,
        transform: &Transform,
    ) -> Result<(), OutOfMemory> {
        match transform {
            Transform::Filter(f) => self.tell_expression(alloc, node, &f.expr),
            Transform::Formula(f) => self.tell_expression(alloc, node, &f.expr),
            Transform::Bin(b) => match &b.extent {
                BinExtent::Pair(_, _) => Ok(()),
                BinExtent::Signal(name) => self.tell_names(node, &[name.as_str()]),
            },
            Transform::Lookup(l) => {
                let other = number_under(&self.lists, l.from.as_str());
                self.tell(node, other)
            }
            Transform::Extent(_)
            | Transform::TimeUnit(_)
            | Transform::Aggregate(_)
            | Transform::JoinAggregate(_)
            | Transform::Stack(_)
            | Transform::Window(_)
            | Transform::Fold(_) => Ok(()),
        }
    }

    // The node of the rows that a transform leaves of those of another node.
    fn rows_after(
        &mut self,
        alloc: Global,
        rows: usize,
        transform: &Transform,
    ) -> Result<usize, OutOfMemory> {
        if let Some(e) = extent_asked(transform) {
            let node = number_under(&self.signals, e.signal.as_str());
            self.tell(node, rows)?;
            return Ok(rows);
        }
        let left = self.add(Node::Rows)?;
        self.tell(left, rows)?;
        self.tell_transform(alloc, left, transform)?;
        Ok(left)
    }

    // The signals and the rows of a data set need what its transforms read.
    fn tell_set(&mut self, alloc: Global, set: &DataSet) -> Result<(), OutOfMemory> {
        let mut rows = match &set.source {
            Some(source) => number_under(&self.lists, source.as_str()),
            None => 0,
        };
        for transform in vega_lists::transforms_of(set) {
            rows = self.rows_after(alloc, rows, transform)?;
        }
        put_number(&mut self.lists, &set.name, rows)
    }

    // Adds all signals.
    fn add_all(&mut self, signals: &'a [Signal], sets: &'a [DataSet]) -> Result<(), OutOfMemory> {
        self.add_computed(signals)?;
        for set in sets {
            self.add_extents(set)?;
        }
        Ok(())
    }

    // All of them need what they read.
    fn tell_all(
        &mut self,
        alloc: Global,
        signals: &[Signal],
        sets: &[DataSet],
    ) -> Result<(), OutOfMemory> {
        for signal in signals {
            self.tell_computed(alloc, signal)?;
        }
        for set in sets {
            self.tell_set(alloc, set)?;
        }
        Ok(())
    }
}

impl<'a> Order<'a> {
    // The next signal has its place.
    fn place(&mut self, name: &Text, place: usize) -> Result<usize, OutOfMemory> {
        let next = place.saturating_add(1);
        put_number(&mut self.places, name, next)?;
        Ok(next)
    }

    // The node that comes next, after so many signals. It gives how many there are now.
    fn come(&mut self, node: Node<'a>, place: usize) -> Result<usize, OutOfMemory> {
        match node {
            Node::Computed(signal) => {
                self.computed.push(signal)?;
                self.place(&signal.name, place)
            }
            Node::Extent(e) => {
                self.extent_count = self.extent_count.saturating_add(1);
                self.place(&e.signal, place)
            }
            Node::Rows => Ok(place),
        }
    }

    // These nodes come one after the other.
    fn come_all(&mut self, nodes: &Seq<Node<'a>>, order: &[usize]) -> Result<(), OutOfMemory> {
        let mut place = 0;
        for node in order {
            if let Some(node) = nodes.get(*node) {
                place = self.come(*node, place)?;
            }
        }
        Ok(())
    }
}

// The signals in the order of their needs.
fn ordered<'a>(
    alloc: Global,
    needs: Needs,
    nodes: &Seq<Node<'a>>,
) -> Result<Order<'a>, OutOfMemory> {
    let order = needs.order(alloc)?;
    let mut out = Order {
        places: no_numbers(alloc),
        computed: Seq::new(alloc),
        extent_count: 0,
    };
    out.come_all(nodes, order.as_slice())?;
    Ok(out)
}

// The signals of an object that aren't given, in an order in which each comes after those that it needs, if there is one. The time is near
// linear in what the object's signals and data sets mention.
pub(crate) fn order_of<'a>(
    alloc: Global,
    signals: &'a [Signal],
    sets: &'a [DataSet],
) -> Result<Order<'a>, OutOfMemory> {
    let mut graph = Graph::new(alloc);
    graph.add_all(signals, sets)?;
    graph.tell_all(alloc, signals, sets)?;
    let Graph { needs, nodes, .. } = graph;
    ordered(alloc, needs, &nodes)
}
