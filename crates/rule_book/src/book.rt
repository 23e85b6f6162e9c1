//! Rules, and books of them.

ghost use Rattle.std.specs.Prelude.{◌≡◌, ◌<◌, [], ◌∷◌, ◌++◌, List, length, get_or, OnOk, OnErr, IfErr};
ghost use Rattle.smt_terms.specs.Sorts.{Sort};
ghost use Rattle.smt_terms.specs.Term.{Term};
ghost use Rattle.rule_book.specs.OneAnswer.{IsRuleAnswer-prop};
ghost use Rattle.rule_book.specs.Seen.{Shows, view_seen, answer_seen};
ghost use Rattle.rule_book.specs.Told.{IsRuleAnswer, IsBookAnswer};

use crate::templates::Tmpl;
use crate::views::View;
use std::alloc::Global;

// What a rule answers on a view, where it applies.
type Call = Box<dyn Fn(&View) -> Option<Tmpl>>;

/// A rule: a function that may answer a template for a view. It keeps with it what is known of the function: it may be called on
/// the view of any well-sorted formula, and what it answers may take that formula's place. Where its name is one of the eight that
/// `eight_rules` has, it answers as that rule does.
#[derive(Drop)]
pub struct Rule {
    name: &'static str,
    call: Call,
    ghost callable: { (ss : List Sort) (t : Term) (v : _) → Shows ss t v.now → Call.pre call v },
    ghost answers: { (ss : List Sort) (t : Term) (v : _) (p : _) → Shows ss t v.now → Call.post call v p → IsRuleAnswer name.now (view_seen ss v.now) (answer_seen p) } by { Prim.hlevel IsRuleAnswer-prop },
}

impl Rule {
    /// A rule of that name.
    pub fn new(name: &'static str, call: Box<dyn Fn(&View) -> Option<Tmpl>>) -> Rule
        requires callable { (ss : List Sort) (t : Term) (v : _) → Shows ss t v.now → Call.pre call v }
        requires answers { (ss : List Sort) (t : Term) (v : _) (p : _) → Shows ss t v.now → Call.post call v p → IsRuleAnswer name.now (view_seen ss v.now) (answer_seen p) }
        ensures { result.name.now ≡ name.now }
    {
        Rule { name, call }
    }

    // What its function answers.
    fn call(&self, view: &View) -> Option<Tmpl>
        requires { Call.pre self.now.call view }
        ensures { Call.post self.now.call view.entry result }
    {
        (self.call)(view)
    }

    // What it answers on the view of a well-sorted formula.
    fn answer(&self, view: &View) -> Option<Tmpl>
        requires { (ss : List Sort) × ((t : Term) × Shows ss t view.now) }
        ensures { (ss : List Sort) (t : Term) → Shows ss t view.now → IsRuleAnswer self.now.name.now (view_seen ss view.now) (answer_seen result) }
    {
        self.call(view)
    }
}

/// Rules, in the order in which they are asked.
#[derive(Drop)]
pub struct RuleBook {
    rules: Vec<Rule>,
}

/// What contracts see of a book: the names of its rules, in order.
pub trait Named {
    ghost use Rattle.std.specs.Prelude.{List};
    ghost use Rattle.smt_terms.specs.Sorts.{Name};

    ghost names: { Self → List Name };
}

impl Named for RuleBook {
    ghost use Rattle.std.specs.Prelude.{map};

    ghost names = { λ b. map (λ r. r.name.now) b.rules.items };
}

/// A rule that a book had no memory for.
#[derive(Drop)]
pub struct AddFault {
    /// The rule.
    pub rule: Rule,
}

impl RuleBook {
    /// A book without rules.
    pub fn new(alloc: Global) -> RuleBook
        ensures { ⟦<RuleBook as Named>⟧.names result ≡ [] }
    {
        RuleBook {
            rules: Vec::new(alloc),
        }
    }

    /// One rule more, which is asked behind the others. Where there is no memory the book stays as it is, and the rule is handed
    /// back.
    pub fn add(&mut self, rule: Rule) -> Result<(), AddFault>
        ensures added { OnOk result (⟦<RuleBook as Named>⟧.names self.new ≡ ⟦<RuleBook as Named>⟧.names self.old ++ rule.name.now ∷ []) }
        ensures rule { IfErr result (λ f. f.rule ≡ rule) }
        ensures refused { OnErr result (⟦<RuleBook as Named>⟧.names self.new ≡ ⟦<RuleBook as Named>⟧.names self.old) }
    {
        match self.rules.push(rule) {
            Ok(()) => Ok(()),
            Err(refused) => Err(AddFault {
                rule: refused.value,
            }),
        }
    }

    /// How many rules there are.
    pub fn len(&self) -> usize
        ensures { result ≡ length (⟦<RuleBook as Named>⟧.names self.now) }
    {
        self.rules.len()
    }

    /// The name of the rule at place `i`, counted from 0.
    pub fn name(&self, i: usize) -> &'static str
        requires { i < length (⟦<RuleBook as Named>⟧.names self.now) }
        ensures { result.now ≡ get_or (⟦<RuleBook as Named>⟧.names self.now) i [] }
    {
        self.rules[i].name
    }

    // What the first rule answers that answers.
    pub(crate) fn first_answer(&self, view: &View) -> Option<Tmpl>
        requires { (ss : List Sort) × ((t : Term) × Shows ss t view.now) }
        ensures { (ss : List Sort) (t : Term) → Shows ss t view.now → IsBookAnswer (⟦<RuleBook as Named>⟧.names self.now) (view_seen ss view.now) (answer_seen result) }
    {
        for rule in &self.rules {
            if let Some(template) = rule.answer(view) {
                return Some(template);
            }
        }
        None
    }
}
