ghost use Rattle.std.specs.Prelude.{◌≡◌, ◌==◌, ◌≤◌, ◌+◌, ◌*◌, length, IfOk, OnOk, Some, None, false, option_copied};
ghost use Rattle.std.specs.List.{list_all};
ghost use Rattle.ld_rec.specs.Terms as terms;
ghost use Rattle.ld_tree.specs.declared.tree.Tree.{out-Tree};
ghost use Rattle.ld_tree.specs.Maps.{find, put as with_put};
ghost use Rattle.ld_ctx.specs.Flat.{flat};
ghost use Rattle.ld_rec.specs.Records.{def_of};
ghost use Rattle.ld_rec.specs.Terms.{Check, Define, begun, begin, is_type_entry, is_type_definition, by_name, by_entry, define_step};
ghost use Rattle.ld_term.specs.Waits.{made_of, rest_of, Goes};
ghost use Rattle.ld_term.specs.Sizes.{Enters, weight, names_left, halves_of};

use crate::half::Step;
use crate::kinds::by_value;
use crate::named::ignored;
use crate::rest::Rest;
use crate::table::{Defined, mark};
use crate::words::{is_keyword, is_keyword_form, is_same, text_of};
use ld_codes::Code;
use ld_ctx::Ctx;
use ld_rec::{Def, Stop};
use ld_tree::{Entries, NoMemory, Text, Tree};
use std::alloc::Global;

// Steps 2 and 6: the table takes false, and the previous definition is taken out.
fn begin_term(
    alloc: Global,
    made: &mut Ctx,
    defined: &mut Defined,
    term: &Text,
) -> Result<Option<Def>, NoMemory>
    ensures previous { IfOk result (λ previous. previous ≡ def_of (flat made.old) term.now) }
    ensures begun { OnOk result (made_of made.new defined.new ≡ begun term.now (made_of made.old defined.old)) }
    ensures table { OnOk result (defined.new ≡ with_put defined.old term.now false) }
{
    let name = term.try_copy(alloc)?;
    let previous = made.take_out(term.as_str());
    mark(defined, name, false)?;
    Ok(previous)
}

// Steps 6 to 28.
fn begin(
    alloc: Global,
    made: &mut Ctx,
    local: &Entries<Tree>,
    defined: &mut Defined,
    rest: &Rest,
    term: Text,
    value: &Tree,
) -> Result<Step, Stop>
    ensures gives { (check : Check) (define : Define) → Goes check define (rest_of rest.now) local.now (made_of made.new defined.new) result (begin check define (rest_of rest.now) local.now term value.now (made_of made.old defined.old)) }
    ensures enters { OnOk result (Enters defined.old term defined.new) }
    ensures size { IfOk result (λ step. weight step ≤ 13) }
{
    let previous = begin_term(alloc, made, defined, &term)?;
    by_value(alloc, made, local, defined, rest, term, value, previous)
}

fn is_type_entry(entry: &(Text, Tree)) -> bool
    ensures { result ≡ is_type_entry entry.now }
{
    (is_same(&entry.0, "@container") && is_set(text_of(&entry.1)))
        || is_same(&entry.0, "@protected")
}

fn is_set(text: Option<&Text>) -> bool
    ensures { result ≡ terms.is_set (option_copied text.entry) }
{
    match text {
        Some(text) => is_same(text, "@set"),
        None => false,
    }
}

fn are_type_entries(entries: &Entries<Tree>) -> bool
    ensures { result ≡ list_all is_type_entry entries.now.0 }
{
    for entry in entries.as_slice() {
        if !is_type_entry(entry) {
            return false;
        }
    }
    true
}

// Step 4: what `@type` may be defined as.
fn is_type_definition(value: &Tree) -> bool
    ensures { result ≡ is_type_definition (out-Tree value.now) }
{
    match value {
        Tree::Map(entries) => !entries.as_slice().is_empty() && are_type_entries(entries),
        _ => false,
    }
}

// Steps 4 to 28.
fn by_name(
    alloc: Global,
    made: &mut Ctx,
    local: &Entries<Tree>,
    defined: &mut Defined,
    rest: &Rest,
    term: Text,
    value: &Tree,
) -> Result<Step, Stop>
    ensures gives { (check : Check) (define : Define) → Goes check define (rest_of rest.now) local.now (made_of made.new defined.new) result (by_name check define (rest_of rest.now) local.now term value.now (made_of made.old defined.old)) }
    ensures enters { OnOk result (Enters defined.old term defined.new) }
    ensures size { IfOk result (λ step. weight step ≤ 13) }
{
    if is_same(&term, "@type") {
        if is_type_definition(value) {
            return begin(alloc, made, local, defined, rest, term, value);
        }
        return Err(Stop::Code(Code::KeywordRedefinition));
    }
    if is_keyword(&term) {
        return Err(Stop::Code(Code::KeywordRedefinition));
    }
    if is_keyword_form(&term) {
        return ignored(alloc, made, defined, &term);
    }
    begin(alloc, made, local, defined, rest, term, value)
}

fn is_empty(text: &Text) -> bool
    ensures { result ≡ (length text.now == 0) }
{
    text.as_str().is_empty()
}

fn table_at(defined: &Defined, term: &Text) -> Option<bool>
    ensures { result ≡ find defined.now term.now }
{
    defined.get(term.as_str()).copied()
}

fn value_at<'a>(local: &'a Entries<Tree>, term: &Text) -> Option<&'a Tree>
    ensures { option_copied result ≡ find local.now term.now }
{
    local.get(term.as_str())
}

// Steps 2 to 28, of a term that the local context has.
fn by_entry(
    alloc: Global,
    made: &mut Ctx,
    local: &Entries<Tree>,
    defined: &mut Defined,
    rest: &Rest,
    term: Text,
    value: &Tree,
) -> Result<Step, Stop>
    ensures gives { (check : Check) (define : Define) → Goes check define (rest_of rest.now) local.now (made_of made.new defined.new) result (by_entry check define (rest_of rest.now) local.now term (Some value.now) (made_of made.old defined.old)) }
    ensures enters { OnOk result (Enters defined.old term defined.new) }
    ensures size { IfOk result (λ step. weight step ≤ 13) }
{
    if is_empty(&term) {
        return Err(Stop::Code(Code::InvalidTermDefinition));
    }
    by_name(alloc, made, local, defined, rest, term, value)
}

// Steps 2 to 28, of a term that isn't in the table.
fn by_value_at(
    alloc: Global,
    made: &mut Ctx,
    local: &Entries<Tree>,
    defined: &mut Defined,
    rest: &Rest,
    term: Text,
) -> Result<Step, Stop>
    requires { find defined.old term ≡ None }
    ensures gives { (check : Check) (define : Define) → Goes check define (rest_of rest.now) local.now (made_of made.new defined.new) result (by_entry check define (rest_of rest.now) local.now term (find local.now term) (made_of made.old defined.old)) }
    ensures size { IfOk result (λ step. 13 * names_left local.now.0 defined.new + weight step ≤ 13 * names_left local.now.0 defined.old) }
    ensures fits { IfOk result (λ step. names_left local.now.0 defined.new + halves_of step ≤ names_left local.now.0 defined.old) }
{
    match value_at(local, &term) {
        None => Err(Stop::Code(Code::InvalidTermDefinition)),
        Some(value) => by_entry(alloc, made, local, defined, rest, term, value),
    }
}

/// Steps 1 to 28, as far as they go before another term is to be defined or a scoped context checked.
pub fn define_step(
    alloc: Global,
    made: &mut Ctx,
    local: &Entries<Tree>,
    defined: &mut Defined,
    rest: &Rest,
    term: Text,
) -> Result<Step, Stop>
    ensures gives { (check : Check) (define : Define) → Goes check define (rest_of rest.now) local.now (made_of made.new defined.new) result (define_step check define (rest_of rest.now) local.now term (made_of made.old defined.old)) }
    ensures size { IfOk result (λ step. 13 * names_left local.now.0 defined.new + weight step ≤ 13 * names_left local.now.0 defined.old) }
    ensures fits { IfOk result (λ step. names_left local.now.0 defined.new + halves_of step ≤ names_left local.now.0 defined.old) }
{
    match table_at(defined, &term) {
        Some(true) => Ok(Step::Done),
        Some(false) => Err(Stop::Code(Code::CyclicIriMapping)),
        None => by_value_at(alloc, made, local, defined, rest, term),
    }
}
