// The texts of why a term is no match specification.
ghost use Rattle.std.specs.Prelude.{◌≡◌, ◌++◌, OnOk, drop, decimal};
ghost use Rattle.std.specs.Option.{option_map};
ghost use Rattle.def_term.specs.Tree.{tuple, count};
ghost use Rattle.def_term.specs.Text.{w, comma_list, atom_text};
ghost use Rattle.def_explain.specs.ReasonTexts.{found_text, count_text, variables_text, meant_in, common_slips};
ghost use Rattle.def_explain.specs.ReasonTexts.{tuple_text, bodies_text, place_text, expression_reason_text};
ghost use Rattle.def_explain.specs.ReasonTexts.{head_term_reason_text, shape_reason_text, clause_reason_text};
ghost use Rattle.def_explain.specs.ReasonTexts.{at_clause_text, spec_reason_text, setting_reason_text};
ghost use Rattle.def_explain.specs.ReasonTexts.{setting_name_text, setting_hint_text};
ghost use Rattle.tn_term.specs.Views.{tree_of, trees_of};
ghost use Rattle.tn_spec.specs.Views.{action_of};
ghost use Rattle.tn_text.specs.Writes.{Grows};
ghost use Rattle.tn_reason.specs.SpecReasons.{expression_reason_seen, head_term_reason_seen, shape_reason_seen};
ghost use Rattle.tn_reason.specs.SpecReasons.{clause_reason_seen, spec_reason_seen, names_seen};
ghost use Rattle.tn_verdict.specs.SpecReasonTexts.{further_texts, counts_of, no_call_text_of};
ghost use Rattle.tn_verdict.specs.SpecReasonTexts.{call_tuple_text, with_count_of, suggestion_text};
ghost use Rattle.tn_verdict.specs.SpecReasonTexts.{no_function_text_of, other_name_text_of, wrong_count_text};

use crate::names::action_text;
use std::alloc::{AllocError, Allocator};
use tn_reason::{ClauseReason, ExpressionReason, HeadTermReason, ShapeReason, SpecReason};
use tn_spec::{Action, Dialect, Row, is_in_bodies, row_named};
use tn_term::{Atom, Term};
use tn_text::{write_atom, write_decimal, write_next, write_term};

/// Appends what there is in its place.
fn put_found<A: Allocator, B: Allocator>(
    term: &Term<A>,
    out: &mut Vec<u8, B>,
) -> Result<(), AllocError>
    ensures ok { OnOk result (out.new.items ≡ out.old.items ++ found_text (tree_of term.now)) }
    ensures grows { Grows out.old.items out.new.items }
{
    out.extend_from_slice(b", found ")?;
    write_term(term, out)
}

/// Appends so many of a thing.
fn put_count<B: Allocator>(
    count: usize,
    thing: &'static [u8],
    out: &mut Vec<u8, B>,
) -> Result<(), AllocError>
    ensures ok { OnOk result (out.new.items ≡ out.old.items ++ count_text count thing.now) }
    ensures grows { Grows out.old.items out.new.items }
{
    write_decimal(count, out)?;
    out.push(b' ')?;
    out.extend_from_slice(thing)?;
    if count != 1 {
        out.push(b's')?;
    }
    Ok(())
}

/// Appends which atoms are variables.
fn put_variables<A: Allocator, B: Allocator>(
    name: &Atom<A>,
    out: &mut Vec<u8, B>,
) -> Result<(), AllocError>
    ensures ok { OnOk result (out.new.items ≡ out.old.items ++ variables_text name.now) }
    ensures grows { Grows out.old.items out.new.items }
{
    write_atom(name, out)?;
    out.extend_from_slice(b" is no variable; variables are '$0' to '$999'")
}

/// Appends the texts of the terms after the first so many, each with a comma before it.
fn put_further<A: Allocator, B: Allocator>(
    terms: &Vec<Term<A>, A>,
    count: usize,
    out: &mut Vec<u8, B>,
) -> Result<(), AllocError>
    ensures ok { OnOk result (out.new.items ≡ out.old.items ++ further_texts count terms.now) }
    ensures grows { Grows out.old.items out.new.items }
{
    for i in count..terms.len() {
        out.push(b',')?;
        write_term(&terms[i], out)?;
    }
    Ok(())
}

/// Appends the texts of the terms, with a comma between any two.
fn put_terms<A: Allocator, B: Allocator>(
    terms: &Vec<Term<A>, A>,
    out: &mut Vec<u8, B>,
) -> Result<(), AllocError>
    ensures ok { OnOk result (out.new.items ≡ out.old.items ++ comma_list (trees_of terms.now.items)) }
    ensures grows { Grows out.old.items out.new.items }
{
    if terms.len() == 0 {
        return Ok(());
    }
    write_term(&terms[0], out)?;
    put_further(terms, 1, out)
}

/// How many terms there are after the first.
fn further_count<A: Allocator>(terms: &Vec<Term<A>, A>) -> usize
    ensures { result ≡ count (trees_of (drop 1 terms.now.items)) }
{
    terms.len().saturating_sub(1)
}

/// Appends a tuple of these elements.
fn put_tuple<A: Allocator, B: Allocator>(
    terms: &Vec<Term<A>, A>,
    out: &mut Vec<u8, B>,
) -> Result<(), AllocError>
    ensures ok { OnOk result (out.new.items ≡ out.old.items ++ w (tuple (trees_of terms.now.items))) }
    ensures grows { Grows out.old.items out.new.items }
{
    out.push(b'{')?;
    put_terms(terms, out)?;
    out.push(b'}')?;
    Ok(())
}

/// Appends how a tuple of these elements is written as an expression.
fn put_written<A: Allocator, B: Allocator>(
    terms: &Vec<Term<A>, A>,
    out: &mut Vec<u8, B>,
) -> Result<(), AllocError>
    ensures ok { OnOk result (out.new.items ≡ out.old.items ++ tuple_text (trees_of terms.now.items)) }
    ensures grows { Grows out.old.items out.new.items }
{
    out.extend_from_slice(b"; a tuple is written {{")?;
    put_terms(terms, out)?;
    out.extend_from_slice(b"}}")?;
    Ok(())
}

/// Appends how a tuple of a name and the terms after the first is written as an expression.
fn put_written_call<A: Allocator, B: Allocator>(
    name: &Atom<A>,
    terms: &Vec<Term<A>, A>,
    out: &mut Vec<u8, B>,
) -> Result<(), AllocError>
    ensures ok { OnOk result (out.new.items ≡ out.old.items ++ call_tuple_text name.now terms.now) }
    ensures grows { Grows out.old.items out.new.items }
{
    out.extend_from_slice(b"; a tuple is written {{")?;
    write_atom(name, out)?;
    put_further(terms, 1, out)?;
    out.extend_from_slice(b"}}")?;
    Ok(())
}

/// Appends a name and how many terms there are after the first.
fn put_name_count<A: Allocator, B: Allocator>(
    name: &Atom<A>,
    terms: &Vec<Term<A>, A>,
    out: &mut Vec<u8, B>,
) -> Result<(), AllocError>
    ensures ok { OnOk result (out.new.items ≡ out.old.items ++ with_count_of name.now terms.now) }
    ensures grows { Grows out.old.items out.new.items }
{
    write_atom(name, out)?;
    out.push(b'/')?;
    write_decimal(further_count(terms), out)
}

/// The written name that is meant by a name of other languages.
#[tactic(auto, unfolding(def_term::specs::Text::is_written_bare))]
fn written_name(text: &str) -> Option<&'static [u8]>
    ensures { names_seen result ≡ option_map atom_text (meant_in common_slips text.now) }
{
    match text {
        "=>" => Some(b"'>='"),
        "<=" => Some(b"'=<'"),
        "!=" => Some(b"'/='"),
        "&&" => Some(b"'andalso'"),
        "||" => Some(b"'orelse'"),
        "gt" => Some(b"'>'"),
        "ge" => Some(b"'>='"),
        "lt" => Some(b"'<'"),
        "le" => Some(b"'=<'"),
        "eq" => Some(b"'=='"),
        "ne" => Some(b"'/='"),
        _ => None,
    }
}

/// Appends a name, and the written name that is meant.
fn put_meant<A: Allocator, B: Allocator>(
    name: &Atom<A>,
    meant: &'static [u8],
    out: &mut Vec<u8, B>,
) -> Result<(), AllocError>
    ensures ok { OnOk result (out.new.items ≡ out.old.items ++ suggestion_text name.now meant.now) }
    ensures grows { Grows out.old.items out.new.items }
{
    write_atom(name, out)?;
    out.extend_from_slice(b"; ")?;
    out.extend_from_slice(meant)?;
    out.extend_from_slice(b" is meant?")?;
    Ok(())
}

/// Appends that a name is of no function, and the name that is meant, or how a tuple of these elements is written.
fn put_no_function<A: Allocator, B: Allocator>(
    name: &Atom<A>,
    terms: &Vec<Term<A>, A>,
    out: &mut Vec<u8, B>,
) -> Result<(), AllocError>
    ensures ok { OnOk result (out.new.items ≡ out.old.items ++ no_function_text_of name.now terms.now) }
    ensures grows { Grows out.old.items out.new.items }
{
    out.extend_from_slice(b"no function ")?;
    if let Some(meant) = written_name(name.text()) {
        return put_meant(name, meant, out);
    }
    put_name_count(name, terms, out)?;
    put_written_call(name, terms, out)
}

/// Appends what is wrong with a call of a name that is no function.
fn put_other_name<A: Allocator, B: Allocator>(
    name: &Atom<A>,
    terms: &Vec<Term<A>, A>,
    out: &mut Vec<u8, B>,
) -> Result<(), AllocError>
    ensures ok { OnOk result (out.new.items ≡ out.old.items ++ other_name_text_of name.now terms.now) }
    ensures grows { Grows out.old.items out.new.items }
{
    if name.text() == "const" {
        out.extend_from_slice(b"const takes 1 argument, found ")?;
        return write_decimal(further_count(terms), out);
    }
    if name.text() == "tracer" {
        return out.extend_from_slice(b"tracer of OTP 27 isn't modelled");
    }
    put_no_function(name, terms, out)
}

/// Appends how many arguments there may be.
fn put_allowed<B: Allocator>(row: Option<Row>, out: &mut Vec<u8, B>) -> Result<(), AllocError>
    ensures ok { OnOk result (out.new.items ≡ out.old.items ++ counts_of row) }
    ensures grows { Grows out.old.items out.new.items }
{
    let Some(row) = row else {
        return out.extend_from_slice(b"another number of arguments");
    };
    let Some(most) = row.most else {
        put_count(row.least, b"argument", out)?;
        return out.extend_from_slice(b" or more");
    };
    if row.least != most {
        write_decimal(row.least, out)?;
        out.extend_from_slice(b" or ")?;
    }
    put_count(most, b"argument", out)
}

/// The bodies that have an action: whether those for sends do, and those for receives.
fn bodies(sends: bool, receives: bool) -> &'static [u8]
    ensures { result.now ≡ bodies_text sends receives }
{
    match (sends, receives) {
        (_, true) => b"bodies alone",
        (true, false) => b"bodies of specifications for calls and sends alone",
        (false, false) => b"bodies of specifications for calls alone",
    }
}

/// Appends where an action stands.
fn put_place<B: Allocator>(action: Action, out: &mut Vec<u8, B>) -> Result<(), AllocError>
    ensures ok { OnOk result (out.new.items ≡ out.old.items ++ place_text (action_of action)) }
    ensures grows { Grows out.old.items out.new.items }
{
    let sends = is_in_bodies(Dialect::Send, action);
    let receives = is_in_bodies(Dialect::Recv, action);
    out.extend_from_slice(action_text(action))?;
    out.extend_from_slice(b" stands in ")?;
    out.extend_from_slice(bodies(sends, receives))
}

/// Appends that a tuple of these elements is no call, and how it is written.
fn put_no_call<A: Allocator, B: Allocator>(
    terms: &Vec<Term<A>, A>,
    out: &mut Vec<u8, B>,
) -> Result<(), AllocError>
    ensures ok { OnOk result (out.new.items ≡ out.old.items ++ no_call_text_of terms.now) }
    ensures grows { Grows out.old.items out.new.items }
{
    put_tuple(terms, out)?;
    out.extend_from_slice(b" is no call")?;
    put_written(terms, out)
}

/// Appends that a name takes another number of arguments than so many.
fn put_wrong_count<A: Allocator, B: Allocator>(
    name: &Atom<A>,
    count: usize,
    out: &mut Vec<u8, B>,
) -> Result<(), AllocError>
    ensures ok { OnOk result (out.new.items ≡ out.old.items ++ wrong_count_text name.now count) }
    ensures grows { Grows out.old.items out.new.items }
{
    write_atom(name, out)?;
    out.extend_from_slice(b" takes ")?;
    put_allowed(row_named(name.text()), out)?;
    out.extend_from_slice(b", found ")?;
    write_decimal(count, out)
}

/// Appends why a term is no expression.
fn put_expression_reason<A: Allocator, B: Allocator>(
    why: ExpressionReason<'_, A>,
    out: &mut Vec<u8, B>,
) -> Result<(), AllocError>
    ensures ok { OnOk result
        (out.new.items ≡ out.old.items ++ expression_reason_text (expression_reason_seen why.entry)) }
    ensures grows { Grows out.old.items out.new.items }
{
    match why {
        ExpressionReason::NotInHead(name) => {
            write_atom(name, out)?;
            out.extend_from_slice(b" isn't in the head")
        }
        ExpressionReason::NoVariable(name) => put_variables(name, out),
        ExpressionReason::NoCall(terms) => put_no_call(terms, out),
        ExpressionReason::NoFunction(name, terms) => put_other_name(name, terms, out),
        ExpressionReason::WrongCount(name, count) => put_wrong_count(name, count, out),
        ExpressionReason::WrongPlace(action) => put_place(action, out),
        ExpressionReason::NotSupported(name) => {
            out.extend_from_slice(b"unsupported function ")?;
            write_atom(name, out)
        }
    }
}

/// Appends why a term is no head.
fn put_head_term_reason<A: Allocator, B: Allocator>(
    why: HeadTermReason<'_, A>,
    out: &mut Vec<u8, B>,
) -> Result<(), AllocError>
    ensures ok { OnOk result
        (out.new.items ≡ out.old.items ++ head_term_reason_text (head_term_reason_seen why.entry)) }
    ensures grows { Grows out.old.items out.new.items }
{
    match why {
        HeadTermReason::NoHead(term) => {
            out.extend_from_slice(b"a head is a variable, '_' or a list")?;
            put_found(term, out)
        }
        HeadTermReason::NoHeadVariable(name) => {
            out.extend_from_slice(b"head: ")?;
            put_variables(name, out)
        }
    }
}

/// Appends why a term has another form than a clause.
fn put_shape_reason<A: Allocator, B: Allocator>(
    why: ShapeReason<'_, A>,
    out: &mut Vec<u8, B>,
) -> Result<(), AllocError>
    ensures ok { OnOk result (out.new.items ≡ out.old.items ++ shape_reason_text (shape_reason_seen why.entry)) }
    ensures grows { Grows out.old.items out.new.items }
{
    match why {
        ShapeReason::NoTuple(term) => {
            out.extend_from_slice(b"a clause is {Head,Conditions,Body}")?;
            put_found(term, out)
        }
        ShapeReason::ElementCount(count) => {
            out.extend_from_slice(b"a clause is {Head,Conditions,Body}, found ")?;
            put_count(count, b"element", out)
        }
        ShapeReason::NoConditions(term) => {
            out.extend_from_slice(b"the conditions are a list")?;
            put_found(term, out)
        }
        ShapeReason::NoBody(term) => {
            out.extend_from_slice(b"the body is a list")?;
            put_found(term, out)
        }
    }
}

/// Appends why a term is no clause.
fn put_clause_reason<A: Allocator, B: Allocator>(
    why: ClauseReason<'_, A>,
    out: &mut Vec<u8, B>,
) -> Result<(), AllocError>
    ensures ok { OnOk result (out.new.items ≡ out.old.items ++ clause_reason_text (clause_reason_seen why.entry)) }
    ensures grows { Grows out.old.items out.new.items }
{
    match why {
        ClauseReason::OfShape(why) => put_shape_reason(why, out),
        ClauseReason::OfHead(why) => put_head_term_reason(why, out),
        ClauseReason::OfCondition(before, why) => {
            out.extend_from_slice(b"condition ")?;
            write_next(before, out)?;
            out.extend_from_slice(b": ")?;
            put_expression_reason(why, out)
        }
        ClauseReason::OfBody(before, why) => {
            out.extend_from_slice(b"body ")?;
            write_next(before, out)?;
            out.extend_from_slice(b": ")?;
            put_expression_reason(why, out)
        }
    }
}

/// Appends why the term after so many is no clause.
fn put_at_clause<A: Allocator, B: Allocator>(
    before: usize,
    why: ClauseReason<'_, A>,
    out: &mut Vec<u8, B>,
) -> Result<(), AllocError>
    ensures ok { OnOk result (out.new.items ≡ out.old.items ++ at_clause_text before (clause_reason_seen why.entry)) }
    ensures grows { Grows out.old.items out.new.items }
{
    out.extend_from_slice(b"clause ")?;
    write_next(before, out)?;
    out.extend_from_slice(b": ")?;
    put_clause_reason(why, out)
}

/// Appends why a term is no match specification. After an `Err`, which is refused memory, a part of it may stand
/// there.
pub fn put_spec_reason<A: Allocator, B: Allocator>(
    why: SpecReason<'_, A>,
    out: &mut Vec<u8, B>,
) -> Result<(), AllocError>
    ensures ok { OnOk result (out.new.items ≡ out.old.items ++ spec_reason_text (spec_reason_seen why.entry)) }
    ensures grows { Grows out.old.items out.new.items }
{
    match why {
        SpecReason::NoClauses(term) => {
            out.extend_from_slice(b"a match specification is a list of one clause or more")?;
            put_found(term, out)
        }
        SpecReason::AtClause(before, why) => put_at_clause(before, why, out),
    }
}

/// What a name in place of a specification is elsewhere.
#[tactic(auto, unfolding(def_term::specs::Text::is_written_bare))]
fn setting_name(text: &str) -> &'static [u8]
    ensures { result.now ≡ setting_name_text text.now }
{
    match text {
        "restart" => b": restart of OTP 27 isn't modelled",
        "pause" => b": pause of OTP 27 isn't modelled",
        "x" => b": in dbg it is [{'_',[],[{exception_trace}]}]",
        "c" => b": in dbg it is [{'_',[],[{message,{caller}}]}]",
        "cx" => b": in dbg it is [{'_',[],[{exception_trace},{message,{caller}}]}]",
        _ => b"",
    }
}

/// What a term in place of a specification is elsewhere.
fn setting_hint<A: Allocator>(term: &Term<A>) -> &'static [u8]
    ensures { result.now ≡ setting_hint_text (tree_of term.now) }
{
    match term {
        Term::Atom(name) => setting_name(name.text()),
        _ => b"",
    }
}

/// Appends why a term is no match specification where a command also takes `true`, `false` and `[]`. After an
/// `Err`, which is refused memory, a part of it may stand there.
pub fn put_setting_reason<A: Allocator, B: Allocator>(
    why: SpecReason<'_, A>,
    out: &mut Vec<u8, B>,
) -> Result<(), AllocError>
    ensures ok { OnOk result (out.new.items ≡ out.old.items ++ setting_reason_text (spec_reason_seen why.entry)) }
    ensures grows { Grows out.old.items out.new.items }
{
    match why {
        SpecReason::NoClauses(term) => {
            out.extend_from_slice(b"Spec is true, false or a list of clauses")?;
            put_found(term, out)?;
            out.extend_from_slice(setting_hint(term))
        }
        SpecReason::AtClause(before, why) => put_at_clause(before, why, out),
    }
}
