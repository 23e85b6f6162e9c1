//! The laws of scripts over truth values, each as the contract of a function that does nothing.

ghost use Rattle.bit_scripts.specs.Laws.{BlastedBitsAreLive, ScriptsAreBlasted};

use bit_blast::laws::blasted_formulas_keep_values;

/// What takes the place of a check can be printed and is over truth values alone; its models, lifted, are those of the check, and
/// the check's models, lowered, are its.
pub fn scripts_are_blasted()
    ensures { ScriptsAreBlasted }
{
    blasted_formulas_keep_values();
}

/// The new constants of what takes the place of a check stand for the bits of constants that are declared at the check.
pub fn blasted_bits_are_live()
    ensures { BlastedBitsAreLive }
{}
