// The work language's own steps in a composite stream's body: values, declarations, expressions and
// assignments.

ghost use Rattle.std.specs.Prelude.{◌≡◌, ◌∷◌, OnOk, map};
ghost use Rattle.std.specs.Option.{option_map};
ghost use Rattle.strc_parse_tree.specs.Tree as tree;
ghost use Rattle.strc_parse_tree.specs.View.{expr_view, variable_view, type_view};
ghost use Rattle.strc_work_meaning.specs.Firing as firing;
ghost use Rattle.strc_work_meaning.specs.Firing.{alone};
ghost use Rattle.strc_work_meaning.specs.Typing as typing;
ghost use Rattle.strc_elab_statements.specs.Statements as spec;
ghost use Rattle.strc_elab_statements.specs.Saying.{store_of};
ghost use Rattle.strc_elab_statements.specs.Answers.{Gives, GivesCount, GivesCells, Done};
ghost use Rattle.strc_elab_statements.specs.Answers.{IsVerdict};
ghost use Rattle.strc_elab_statements.specs.Places.{place_of};

use crate::assignment::do_simple;
use crate::error::{ElabError, ElabErrorKind};
use crate::evaluation;
use crate::store::Store;
use std::alloc::Global;
use strc_lex_names::name::Name;
use strc_parse_tree::tree::{AssignOperator, Expr, Variable, VariableType, Variables};
use strc_work_meaning::constants::Constants;
use strc_work_meaning::fault::Cause;
use strc_work_meaning::types::ValueType;
use strc_work_rules::context::init_context;
use strc_work_rules::error::{LowerError, LowerErrorKind};
use strc_work_rules::expression_rules::{resolve_as, resolve_expr, resolve_initial};
use strc_work_rules::site::Mismatch;
use strc_work_rules::statement_rules::{resolve_assigned, resolve_element};
use strc_work_rules::type_rules::LENGTH_LIMIT;

/// Where a body's statements are: the number of the declaration that holds them, and the
/// constants that they see.
#[derive(Clone, Copy)]
pub struct Place<'a> {
    pub alloc: Global,
    pub declaration: usize,
    pub constants: &'a Constants,
}

/// A refusal of the rules on names and types, reported of the declaration that holds the text.
pub fn at_declaration(declaration: usize, error: LowerError) -> ElabError
    ensures { result ≡ spec.at_declaration declaration error }
{
    let site = error.site();
    let kind = match error.into_kind() {
        LowerErrorKind::UnknownName { name } => ElabErrorKind::UnknownName { name },
        LowerErrorKind::TypeMismatch => ElabErrorKind::TypeMismatch {
            stream: declaration,
        },
        LowerErrorKind::ConstFault { cause } => ElabErrorKind::ConstFault { cause },
        LowerErrorKind::BadArguments => ElabErrorKind::BadArguments {
            stream: declaration,
        },
        LowerErrorKind::NoMemory => ElabErrorKind::NoMemory,
    };
    ElabError::new(kind, site)
}

impl Place<'_> {
    /// The value of an expression of this type; its names and types are checked just before.
    pub fn eval_checked(
        &self,
        kind: ValueType,
        expression: &Expr,
        store: &mut Store,
    ) -> Result<i32, ElabError>
        ensures gives { Gives (spec.eval_checked (place_of self.now) store.old.variables.names kind
            (expr_view expression.now) (store_of store.old)) result (store_of store.new) }
        ensures names { store.new.variables.names ≡ store.old.variables.names }
    {
        let site = init_context(self.constants);
        match resolve_as(self.alloc, &site, store.variables.names(), kind, expression) {
            Ok(resolved) => match evaluation::value(&resolved, store) {
                Ok(value) => Ok(value),
                Err(cause) => Err(ElabError::fault(cause)),
            },
            Err(error) => Err(at_declaration(self.declaration, error)),
        }
    }
}

impl Place<'_> {
    /// Does an assignment, or evaluates an expression.
    pub fn evaluate(&self, expression: &Expr, store: &mut Store) -> Result<(), ElabError>
        ensures done { Done (spec.simple_done (place_of self.now) store.old.variables.names 0
            (tree.Evaluate (expr_view expression.now)) (store_of store.old)) result
            (store_of store.new) }
        ensures names { store.new.variables.names ≡ store.old.variables.names }
    {
        let site = init_context(self.constants);
        match resolve_expr(self.alloc, &site, store.variables.names(), expression) {
            Ok(typed) => match evaluation::value(&typed.value, store) {
                Ok(_) => Ok(()),
                Err(cause) => Err(ElabError::fault(cause)),
            },
            Err(error) => Err(at_declaration(self.declaration, error)),
        }
    }

    /// Does an assignment to a variable.
    pub fn assign(
        &self,
        name: &Name,
        operator: AssignOperator,
        expression: &Expr,
        store: &mut Store,
    ) -> Result<(), ElabError>
        ensures done { Done (spec.simple_done (place_of self.now) store.old.variables.names 0
            (tree.Assign name.now operator (expr_view expression.now)) (store_of store.old)) result
            (store_of store.new) }
        ensures names { store.new.variables.names ≡ store.old.variables.names }
    {
        let site = init_context(self.constants);
        match resolve_assigned(
            self.alloc,
            &site,
            store.variables.names(),
            name,
            operator,
            expression,
        ) {
            Ok(resolved) => {
                let outcome = done(do_simple(&resolved, store));
                drop(resolved);
                outcome
            }
            Err(error) => Err(at_declaration(self.declaration, error)),
        }
    }

    /// Does an assignment to an element of an array.
    pub fn assign_element(
        &self,
        name: &Name,
        index: &Expr,
        operator: AssignOperator,
        expression: &Expr,
        store: &mut Store,
    ) -> Result<(), ElabError>
        ensures done { Done (spec.simple_done (place_of self.now) store.old.variables.names 0
            (tree.AssignElement name.now (expr_view index.now) operator (expr_view expression.now))
            (store_of store.old)) result (store_of store.new) }
        ensures names { store.new.variables.names ≡ store.old.variables.names }
    {
        let site = init_context(self.constants);
        match resolve_element(
            self.alloc,
            &site,
            store.variables.names(),
            name,
            index,
            operator,
            expression,
        ) {
            Ok(resolved) => {
                let outcome = done(do_simple(&resolved, store));
                drop(resolved);
                outcome
            }
            Err(error) => Err(at_declaration(self.declaration, error)),
        }
    }

    /// Declares variables: their type, and then each checked and evaluated before the next one,
    /// which sees it. Those of the same block have numbers from `start` on.
    pub fn declare(
        &self,
        start: usize,
        declared: &Variables,
        store: &mut Store,
    ) -> Result<(), ElabError>
        ensures done { Done (spec.declaration_done
            (place_of self.now) store.old.variables.names start (type_view declared.now.kind)
            (map variable_view declared.now.variables.items) (store_of store.old)) result
            (store_of store.new) }
        ensures names { OnOk result (store.new.variables.names
            ≡ typing.with_declared store.old.variables.names
            (typing.type_of (type_view declared.now.kind))
            (map variable_view declared.now.variables.items)) }
    {
        let cells = self.cells_of(&declared.kind, store)?;
        let kind = type_of(&declared.kind);
        for variable in &declared.variables {
            self.declare_one(start, kind, cells, variable, store)?;
        }
        Ok(())
    }

    /// How many cells a variable of a declared type has. The length of an array is evaluated here;
    /// one that an array can't have is `ConstFault` by `Index`.
    fn cells_of(&self, declared: &VariableType, store: &mut Store) -> Result<usize, ElabError>
        ensures gives { GivesCount (spec.cells_declared (place_of self.now)
            store.old.variables.names (type_view declared.now) (store_of store.old)) result
            (store_of store.new) }
        ensures names { store.new.variables.names ≡ store.old.variables.names }
    {
        match declared {
            VariableType::Boolean | VariableType::Int => Ok(1),
            VariableType::Array(length) => {
                array_cells(self.eval_checked(ValueType::Int, length, store)?)
            }
        }
    }

    /// Declares one variable.
    fn declare_one(
        &self,
        start: usize,
        kind: ValueType,
        cells: usize,
        variable: &Variable,
        store: &mut Store,
    ) -> Result<(), ElabError>
        ensures done { Done (spec.variable_done
            (place_of self.now) store.old.variables.names start kind cells
            (variable_view variable.now) (store_of store.old)) result (store_of store.new) }
        ensures names { OnOk result (store.new.variables.names
            ≡ record { 0 = variable.now.name; 1 = kind } ∷ store.old.variables.names) }
    {
        if store.variables.names().has_since(start, &variable.name) {
            return Err(ElabError::mismatch(self.declaration, Mismatch::DeclaredTwice).or_at(
                variable.name.place(),
            ));
        }
        let site = init_context(self.constants);
        match resolve_initial(
            self.alloc,
            &site,
            store.variables.names(),
            kind,
            &variable.initial,
        ) {
            Ok(initial) => {
                let cells = self.initial_cells(cells, &initial, store)?;
                store.variables.declare(&variable.name, kind, cells)?;
                Ok(())
            }
            Err(error) => Err(at_declaration(self.declaration, error)),
        }
    }

    /// The cells of a new variable: its initialiser's value, or zeros.
    fn initial_cells(
        &self,
        cells: usize,
        initial: &Option<Expr>,
        store: &mut Store,
    ) -> Result<Vec<i32>, ElabError>
        ensures gives { GivesCells (spec.computed
            (firing.initial_cells alone cells (option_map expr_view initial.now)
            (store_of store.old))) result (store_of store.new) }
        ensures names { store.new.variables.names ≡ store.old.variables.names }
    {
        match initial {
            None => Ok(Vec::from_elem(self.alloc, 0, cells)?),
            Some(expression) => match evaluation::value(expression, store) {
                Ok(value) => Ok(Vec::from_elem(self.alloc, value, 1)?),
                Err(cause) => Err(ElabError::fault(cause)),
            },
        }
    }
}

/// What was done, or the fault.
fn done(outcome: Result<(), Cause>) -> Result<(), ElabError>
    ensures { result ≡ spec.computed outcome }
{
    match outcome {
        Ok(()) => Ok(()),
        Err(cause) => Err(ElabError::fault(cause)),
    }
}

/// The type of the values that a declared type's variables have.
fn type_of(declared: &VariableType) -> ValueType
    ensures { result ≡ typing.type_of (type_view declared.now) }
{
    match declared {
        VariableType::Boolean => ValueType::Boolean,
        VariableType::Int => ValueType::Int,
        VariableType::Array(_) => ValueType::Array,
    }
}

/// How many cells an array of this length has.
fn array_cells(length: i32) -> Result<usize, ElabError>
    ensures { IsVerdict (λ count. count) (spec.array_cells length) result }
{
    if length < 1 || length > LENGTH_LIMIT {
        return Err(ElabError::fault(Cause::Index));
    }
    Ok(length as usize)
}
