// The trees of values that several objects hold.
ghost use Rattle.std.specs.Prelude.{◌≡◌, [], ◌∷◌, IfOk, option_map};
ghost use Rattle.json_exact.specs.declared.json.Json.{Json as Tree};
ghost use Rattle.vega_writing.specs.Trees.{text_tree, flag_tree, number_tree, list_tree};
ghost use Rattle.vega_writing.specs.Trees.{or_null, pair_tree, cell_tree, expression_tree, computed_tree};

use crate::several::list_of_two;
use crate::slots::{no_slots, object, with};
use cell_value::Cell;
use expr_syntax::Expr;
use fixed_num::Num;
use json_exact::Json;
use std::alloc::Global;
use text_kit::{OutOfMemory, Seq, Text};

/// A value that is written as a tree.
pub trait Written {
    ghost tree: { Self → Tree };

    /// The tree.
    fn tree(&self, alloc: Global) -> Result<Json, OutOfMemory>
        ensures { IfOk result (λ written. written ≡ tree self.now) };
}

impl Written for Text {
    ghost tree = { text_tree };

    fn tree(&self, _: Global) -> Result<Json, OutOfMemory> {
        Ok(Json::Text(self.copy()?))
    }
}

impl Written for bool {
    ghost tree = { flag_tree };

    fn tree(&self, _: Global) -> Result<Json, OutOfMemory> {
        Ok(Json::Flag(*self))
    }
}

impl Written for Num {
    ghost tree = { number_tree };

    fn tree(&self, _: Global) -> Result<Json, OutOfMemory> {
        Ok(Json::Number(*self))
    }
}

impl Written for Expr {
    ghost tree = { expression_tree };

    fn tree(&self, alloc: Global) -> Result<Json, OutOfMemory> {
        Ok(Json::Text(expr_syntax::write(alloc, self)?))
    }
}

impl Written for Cell {
    ghost tree = { cell_tree };

    #[tactic(auto, unfolding(crate::specs::Trees::cell_tree))]
    fn tree(&self, alloc: Global) -> Result<Json, OutOfMemory> {
        match self {
            Cell::Null => Ok(Json::Null),
            Cell::Flag(flag) => Ok(Json::Flag(*flag)),
            Cell::Number(number) => Ok(Json::Number(*number)),
            Cell::Text(text) => Ok(Json::Text(text.copy()?)),
            Cell::Pair(first, second) => two_numbers(alloc, *first, *second),
        }
    }
}

impl<T: Written> Written for Option<T> {
    ghost tree = { or_null T.tree };

    fn tree(&self, alloc: Global) -> Result<Json, OutOfMemory> {
        match self {
            Some(value) => value.tree(alloc),
            None => Ok(Json::Null),
        }
    }
}

impl<T: Written> Written for Seq<T> {
    ghost tree = { list_tree T.tree };

    fn tree(&self, alloc: Global) -> Result<Json, OutOfMemory> {
        let mut items = Seq::new(alloc);
        for item in self.as_slice() {
            items.push(item.tree(alloc)?)?;
        }
        Ok(Json::List(items))
    }
}

impl Written for (Text, Text) {
    ghost tree = { pair_tree };

    fn tree(&self, alloc: Global) -> Result<Json, OutOfMemory> {
        list_of_two(alloc, self.0.tree(alloc), self.1.tree(alloc))
    }
}

// A text as a tree.
pub fn word(alloc: Global, text: &str) -> Result<Json, OutOfMemory>
    ensures { IfOk result (λ tree. tree ≡ text_tree text.now) }
{
    Ok(Json::Text(Text::of(alloc, text)?))
}

// A list of two numbers.
pub fn two_numbers(alloc: Global, first: Num, second: Num) -> Result<Json, OutOfMemory>
    ensures { IfOk result (λ tree. tree ≡ list_tree number_tree (first ∷ second ∷ [])) }
{
    list_of_two(alloc, Ok(Json::Number(first)), Ok(Json::Number(second)))
}

// The object that stands for the value of an expression.
pub fn computed_tree(alloc: Global, e: &Expr) -> Result<Json, OutOfMemory>
    ensures { IfOk result (λ tree. tree ≡ computed_tree e.now) }
{
    let slots = no_slots(alloc);
    let slots = with(alloc, slots, "signal", e);
    object(alloc, slots)
}

// The same, where there is an expression.
pub fn computed_tree_if(alloc: Global, e: &Option<Expr>) -> Result<Option<Json>, OutOfMemory>
    ensures { IfOk result (λ tree. tree ≡ option_map computed_tree e.now) }
{
    match e {
        Some(e) => Ok(Some(computed_tree(alloc, e)?)),
        None => Ok(None),
    }
}
