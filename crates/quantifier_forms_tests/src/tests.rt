//! Formulas with quantifiers side by side, over each other, and in several places, and formulas that are deep or shared.
//! Expected forms were worked out by hand.

mod spared;
mod terms;

use std::test::Fail;
use terms::{Tower, after};

#[test]
fn quantified_formulas_go_in_front(rt: HostRuntime) -> Result<(), Fail> {
    let lines = b"
P &Ex|xaAx^xb       EUAV&|Ua|&V~b&~Vb
P &a~b              &a~b
P ~Ex&xa            AU|~U~a
P E3xy&xy           E3UV&UV
P &Exx|aExx         EU&U|aU
P &ExxAy|yExx       EUAVEX&U|VX
P |Ax>xExx&aAyy     AUEVAX||~UV&aX
P &ExAy=xya         EUAV&&|~UV|U~Va
P ExAx|xa           EUAV|Va
P ^aExx             AUEV|&a~U&~aV
P =?Exxmnn          =?Exxmnn
P |aEm=mn           EK|a=Kn
";
    after(&rt, rt.alloc(), &[], lines)?;
    Ok(())
}

#[test]
fn quantified_truth_values_are_replaced(rt: HostRuntime) -> Result<(), Fail> {
    let lines = b"
S Ex^xa             |^Ta^Fa
S Ax^xa             &^Ta^Fa
S Exa               |aa
S E3xy&xy           ||&TT&TF|&FT&FF
S ExAy=xy           |&=TT=TF&=FT=FF
S Ex&xAx|xa         |&T&|Ta|Fa&F&|Ta|Fa
S A4xmy&>xy=mn      Am&&&>TT=mn&>TF=mn&&>FT=mn&>FF=mn
S =?Exxmnn          =?|TFmnn
Q Ex^xa             ^^Taa
Q Ax^xa             ^^Faa
Q Exa               a
Q E3xy^xy           ^^T^TT^^T^TTT
Q ExAy=xy           ==T=TF==T=TFF
Q E3xm&x=mn         Em&&T=mn=mn
Q =?Exxmnn          =?Tmnn
";
    after(&rt, rt.alloc(), &[], lines)?;
    Ok(())
}

#[test]
fn shared_formulas_have_one_choice_of_names(rt: HostRuntime) -> Result<(), Fail> {
    let shared = Tower {
        start: b"EmEx&=mnAm|x=mn Em&=mnAK|&=mnAm|T=mn=Kn EmEx|=mnAm&x=mn Em|=mnAL&|=mnAm&T=mn=Ln",
        turn: b"",
        turns: 0,
    };
    after(&rt, rt.alloc(), &[shared], b"Q|GG|HH Q&G|IG&H|JH")?;
    Ok(())
}

#[test]
fn a_quantified_formula_far_below(rt: HostRuntime) -> Result<(), Fail> {
    let chain = Tower {
        start: b"Exx U",
        turn: b"&|bGa &|bHa",
        turns: 10_000,
    };
    after(&rt, rt.alloc(), &[chain], b"PGEUH")?;
    Ok(())
}

#[test]
fn a_hundred_thousand_nested_negations(rt: HostRuntime) -> Result<(), Fail> {
    let negations = Tower {
        start: b"Ex|xa ||Ta|Fa ||Taa",
        turn: b"~G ~H ~I",
        turns: 100_000,
    };
    after(
        &rt,
        rt.alloc(),
        &[negations],
        b"P G EU|Ua P ~G AU&~U~a SGH QGI",
    )?;
    Ok(())
}

#[test]
fn a_variable_below_nested_negations(rt: HostRuntime) -> Result<(), Fail> {
    let body = Tower {
        start: b"|xAm=mn |TAm=mn |FAm=mn",
        turn: b"~G ~H ~I",
        turns: 100_000,
    };
    let again = Tower {
        start: b"|HAm=mn GHI",
        turn: b"~G HIJ",
        turns: 100_000,
    };
    after(&rt, rt.alloc(), &[body], b"S ExG |HI S AxG &HI")?;
    after(&rt, rt.alloc(), &[body, again], b"QExHG")?;
    Ok(())
}
