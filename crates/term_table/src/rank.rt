//! The rank of an operator over operands.

ghost use Rattle.std.specs.Prelude.{◌≡◌, ◌≢◌, ◌<◌, ◌≤◌, ◌+◌, [], ◌∷◌, length, map, replicate, All, Some, None, MatchOption, MatchResult, IfSome, IfOk, IfErr, IsTrue, ◌↔◌, ◌^◌};
ghost use Rattle.smt_terms.specs.Sorts.{bool, bit_vector, array};
ghost use Rattle.smt_terms.specs.Rank.{fixed, several, equation, distinctness, choice, whole_number, bit_constant, concatenation, extraction, extension, rotation, bitwise, bitwise_pair, bits_comparison, selection, storing, filling, only, any_width, any_array, misfit, first_misfit, rank_quantifier, may_bind, symbol_name, has_name};
ghost use Rattle.smt_values.specs.SortIds.{sort_at, IsSortId};

use crate::fault::RankFault;
use crate::table::Table;
use smt_terms::{MOST_BITS, NodeId};
use smt_values::{Op, SortId, SymId};

/// Whether a quantifier may bind a constant of this sort: `Bool` and the bit vectors are.
fn is_quantifiable_sort(sort: SortId) -> bool
    ensures { IsTrue result ↔ ((sort.0 ≢ 1) × (sort.0 < 130)) }
{
    sort == SortId::BOOL || sort.width().is_some()
}

/// Whether the bits are below 2 to the width, for a width of at most 128.
pub fn fits(bits: u128, width: u32) -> bool
    requires { width ≤ 128 }
    ensures { IsTrue result ↔ (bits < 2 ^ width) }
{
    width == 128 || bits >> width == 0
}

impl Table {
    ghost use Rattle.term_table.specs.Formulas.{rank_over, trees_at, symbol_at, tree, AreNodes, IsOpOf, IsSymbol, IsNode, IsTable};
    ghost use Rattle.term_table.specs.Faults.{rank_seen, fault_seen, IsRankOver, IsFaultOver};
    ghost use Rattle.term_table.specs.ShapeRank.{shape_rank, kid_sorts, misfit_seen};

    fn one(&self, kids: &[NodeId]) -> Option<SortId>
        requires { AreNodes self.now kids.now }
        ensures sorts { MatchOption result (length kids.now ≢ 1) (λ a. kid_sorts self.now kids.now ≡ sort_at self.now.sorts a ∷ []) }
        ensures within { IfSome result (λ a. IsSortId self.now.sorts a) }
        ensures table { IfSome result (λ _. IsTable self.now) }
    {
        if kids.len() != 1 {
            return None;
        }
        Some(self.sort_of(kids[0]))
    }

    fn two(&self, kids: &[NodeId]) -> Option<(SortId, SortId)>
        requires { AreNodes self.now kids.now }
        ensures sorts { MatchOption result (length kids.now ≢ 2) (λ p. kid_sorts self.now kids.now ≡ sort_at self.now.sorts p.0 ∷ sort_at self.now.sorts p.1 ∷ []) }
        ensures first { IfSome result (λ p. IsSortId self.now.sorts p.0) }
        ensures second { IfSome result (λ p. IsSortId self.now.sorts p.1) }
        ensures table { IfSome result (λ _. IsTable self.now) }
    {
        if kids.len() != 2 {
            return None;
        }
        Some((self.sort_of(kids[0]), self.sort_of(kids[1])))
    }

    fn three(&self, kids: &[NodeId]) -> Option<(SortId, SortId, SortId)>
        requires { AreNodes self.now kids.now }
        ensures sorts { MatchOption result (length kids.now ≢ 3) (λ p. kid_sorts self.now kids.now ≡ sort_at self.now.sorts p.0 ∷ sort_at self.now.sorts p.1 ∷ sort_at self.now.sorts p.2 ∷ []) }
        ensures first { IfSome result (λ p. IsSortId self.now.sorts p.0) }
        ensures second { IfSome result (λ p. IsSortId self.now.sorts p.1) }
        ensures third { IfSome result (λ p. IsSortId self.now.sorts p.2) }
        ensures table { IfSome result (λ _. IsTable self.now) }
    {
        if kids.len() != 3 {
            return None;
        }
        Some((
            self.sort_of(kids[0]),
            self.sort_of(kids[1]),
            self.sort_of(kids[2]),
        ))
    }

    // The fault of an operand that has the first sort where the second is wanted.
    fn unlike(&self, arg: u64, have: SortId, want: SortId) -> Option<RankFault>
        requires have { IsSortId self.now.sorts have }
        requires want { IsSortId self.now.sorts want }
        requires table { IsTable self.now }
        ensures fault { misfit_seen self.now.sorts result ≡ misfit arg (only (sort_at self.now.sorts want)) (sort_at self.now.sorts have) }
        ensures sorts { IfSome result (IsFaultOver self.now.sorts) }
    {
        if have.0 == want.0 {
            return None;
        }
        Some(RankFault::WrongSort { arg, have, want })
    }

    // The width of an operand that has to be a bit vector.
    fn width(&self, arg: u64, have: SortId) -> Result<u32, RankFault>
        requires have { IsSortId self.now.sorts have }
        requires table { IsTable self.now }
        ensures width { MatchResult result (λ w. sort_at self.now.sorts have ≡ bit_vector w) (λ e. misfit arg any_width (sort_at self.now.sorts have) ≡ Some (fault_seen self.now.sorts e)) }
        ensures most { IfOk result (λ w. w ≤ 128) }
        ensures sorts { IfErr result (IsFaultOver self.now.sorts) }
    {
        match have.width() {
            Some(width) => Ok(width),
            None => Err(RankFault::WrongSort {
                arg,
                have,
                want: SortId::BIT,
            }),
        }
    }

    // The index and the element of an operand that has to be an array.
    fn parts(&self, arg: u64, have: SortId) -> Result<(SortId, SortId), RankFault>
        requires { IsSortId self.now.sorts have }
        ensures parts { MatchResult result (λ p. sort_at self.now.sorts have ≡ array (sort_at self.now.sorts p.0) (sort_at self.now.sorts p.1)) (λ e. misfit arg any_array (sort_at self.now.sorts have) ≡ Some (fault_seen self.now.sorts e)) }
        ensures index { IfOk result (λ p. IsSortId self.now.sorts p.0) }
        ensures element { IfOk result (λ p. IsSortId self.now.sorts p.1) }
        ensures sorts { IfErr result (IsFaultOver self.now.sorts) }
    {
        match self.sorts().parts(have) {
            Some(parts) => Ok(parts),
            None => Err(RankFault::WrongSort {
                arg,
                have,
                want: have,
            }),
        }
    }

    // The first fault of operands that all have to have one sort.
    fn unlike_all(&self, kids: &[NodeId], want: SortId) -> Option<RankFault>
        requires kids { AreNodes self.now kids.now }
        requires want { IsSortId self.now.sorts want }
        ensures fault { misfit_seen self.now.sorts result ≡ first_misfit 0 (map (λ _. only (sort_at self.now.sorts want)) (kid_sorts self.now kids.now)) (kid_sorts self.now kids.now) }
        ensures sorts { IfSome result (IsFaultOver self.now.sorts) }
    {
        for (k, kid) in kids.iter().enumerate() {
            if let Some(fault) = self.unlike(k as u64, self.sort_of(*kid), want) {
                return Some(fault);
            }
        }
        None
    }

    // The first fault of operands that have to have these sorts.
    fn unlike_each(&self, kids: &[NodeId], wants: &[SortId]) -> Option<RankFault>
        requires kids { AreNodes self.now kids.now }
        requires wants { All (IsSortId self.now.sorts) wants.now }
        requires number { length wants.now ≡ length kids.now }
        ensures fault { misfit_seen self.now.sorts result ≡ first_misfit 0 (map only (map (sort_at self.now.sorts) wants.now)) (kid_sorts self.now kids.now) }
        ensures sorts { IfSome result (IsFaultOver self.now.sorts) }
    {
        for (k, kid) in kids.iter().enumerate() {
            if let Some(fault) = self.unlike(k as u64, self.sort_of(*kid), wants[k]) {
                return Some(fault);
            }
        }
        None
    }

    fn application(&self, kids: &[NodeId], f: SymId) -> Result<SortId, RankFault>
        requires kids { AreNodes self.now kids.now }
        requires symbol { IsSymbol self.now f }
        ensures rank { rank_seen self.now.sorts result ≡ shape_rank (fixed (symbol_at self.now f).args (symbol_at self.now f).result) (kid_sorts self.now kids.now) }
        ensures sorts { IsRankOver self.now.sorts result }
    {
        let (args, to) = self.symbol_rank(f);
        if kids.len() != args.len() {
            return Err(RankFault::WrongArity);
        }
        match self.unlike_each(kids, args) {
            Some(fault) => Err(fault),
            None => Ok(to),
        }
    }

    // Quantifiers bind constants of sort Bool or of a bit-vector sort, each of another name.
    #[inline(never)]
    fn binder(&self, kids: &[NodeId]) -> Result<SortId, RankFault>
        requires { AreNodes self.now kids.now }
        ensures rank { rank_seen self.now.sorts result ≡ rank_quantifier (trees_at self.now kids.now) (kid_sorts self.now kids.now) }
        ensures sorts { IsRankOver self.now.sorts result }
    {
        if kids.len() < 2 {
            return Err(RankFault::WrongArity);
        }
        let last = kids.len() - 1;
        for k in 0..last {
            if !self.may_bind(&kids[..k], kids[k]) {
                return Err(RankFault::WrongSort {
                    arg: k as u64,
                    have: self.sort_of(kids[k]),
                    want: SortId::BOOL,
                });
            }
        }
        match self.unlike(last as u64, self.sort_of(kids[last]), SortId::BOOL) {
            Some(fault) => Err(fault),
            None => Ok(SortId::BOOL),
        }
    }

    #[tactic(auto, unfolding(crate::specs::Formulas::kind))]
    fn may_bind(&self, earlier: &[NodeId], kid: NodeId) -> bool
        requires earlier { AreNodes self.now earlier.now }
        requires kid { IsNode self.now kid }
        ensures { result ≡ may_bind (map symbol_name (trees_at self.now earlier.now)) (tree self.now kid) }
    {
        let Op::Sym(f) = self.op(kid) else {
            return false;
        };
        let (args, to) = self.symbol_rank(f);
        if !args.is_empty() {
            return false;
        }
        if !is_quantifiable_sort(to) {
            return false;
        }
        !self.is_named(earlier, self.symbol_name(f))
    }

    fn is_named(&self, kids: &[NodeId], name: &[u8]) -> bool
        requires { AreNodes self.now kids.now }
        ensures { result ≡ has_name name.now (map symbol_name (trees_at self.now kids.now)) }
    {
        for kid in kids {
            if name == self.constant_name(*kid) {
                return true;
            }
        }
        false
    }

    #[tactic(auto, unfolding(crate::specs::Formulas::kind))]
    fn constant_name(&self, kid: NodeId) -> &[u8]
        requires { IsNode self.now kid }
        ensures { result.now ≡ symbol_name (tree self.now kid) }
    {
        match self.op(kid) {
            Op::Sym(f) => self.symbol_name(f),
            _ => &[],
        }
    }

    fn uniform(
        &self,
        kids: &[NodeId],
        count: usize,
        operand: SortId,
        to: SortId,
    ) -> Result<SortId, RankFault>
        requires kids { AreNodes self.now kids.now }
        requires operand { operand.0 < 2 }
        requires to { to.0 < 2 }
        ensures rank { rank_seen self.now.sorts result ≡ shape_rank (fixed (replicate count (sort_at self.now.sorts operand)) (sort_at self.now.sorts to)) (kid_sorts self.now kids.now) }
        ensures sorts { IsRankOver self.now.sorts result }
    {
        if kids.len() != count {
            return Err(RankFault::WrongArity);
        }
        match self.unlike_all(kids, operand) {
            Some(fault) => Err(fault),
            None => Ok(to),
        }
    }

    fn several(&self, kids: &[NodeId], operand: SortId) -> Result<SortId, RankFault>
        requires kids { AreNodes self.now kids.now }
        requires operand { operand.0 < 2 }
        ensures rank { rank_seen self.now.sorts result ≡ shape_rank (several (sort_at self.now.sorts operand)) (kid_sorts self.now kids.now) }
        ensures sorts { IsRankOver self.now.sorts result }
    {
        if kids.len() < 2 {
            return Err(RankFault::WrongArity);
        }
        match self.unlike_all(kids, operand) {
            Some(fault) => Err(fault),
            None => Ok(operand),
        }
    }

    fn equation(&self, kids: &[NodeId]) -> Result<SortId, RankFault>
        requires { AreNodes self.now kids.now }
        ensures rank { rank_seen self.now.sorts result ≡ shape_rank equation (kid_sorts self.now kids.now) }
        ensures sorts { IsRankOver self.now.sorts result }
    {
        let Some((a, b)) = self.two(kids) else {
            return Err(RankFault::WrongArity);
        };
        match self.unlike(1, b, a) {
            Some(fault) => Err(fault),
            None => Ok(SortId::BOOL),
        }
    }

    #[inline(never)]
    fn distinctness(&self, kids: &[NodeId]) -> Result<SortId, RankFault>
        requires { AreNodes self.now kids.now }
        ensures rank { rank_seen self.now.sorts result ≡ shape_rank distinctness (kid_sorts self.now kids.now) }
        ensures sorts { IsRankOver self.now.sorts result }
    {
        if kids.len() < 2 {
            return Err(RankFault::WrongArity);
        }
        match self.unlike_all(kids, self.sort_of(kids[0])) {
            Some(fault) => Err(fault),
            None => Ok(SortId::BOOL),
        }
    }

    fn choice(&self, kids: &[NodeId]) -> Result<SortId, RankFault>
        requires { AreNodes self.now kids.now }
        ensures rank { rank_seen self.now.sorts result ≡ shape_rank choice (kid_sorts self.now kids.now) }
        ensures sorts { IsRankOver self.now.sorts result }
    {
        let Some((c, a, b)) = self.three(kids) else {
            return Err(RankFault::WrongArity);
        };
        if let Some(fault) = self.unlike(0, c, SortId::BOOL) {
            return Err(fault);
        }
        match self.unlike(2, b, a) {
            Some(fault) => Err(fault),
            None => Ok(a),
        }
    }

    fn concatenation(&self, kids: &[NodeId]) -> Result<SortId, RankFault>
        requires { AreNodes self.now kids.now }
        ensures rank { rank_seen self.now.sorts result ≡ shape_rank concatenation (kid_sorts self.now kids.now) }
        ensures sorts { IsRankOver self.now.sorts result }
    {
        let Some((a, b)) = self.two(kids) else {
            return Err(RankFault::WrongArity);
        };
        let high = self.width(0, a)?;
        let low = self.width(1, b)?;
        if high + low > MOST_BITS {
            return Err(RankFault::WidthLimit);
        }
        Ok(SortId::of_width(high + low))
    }

    fn extraction(&self, kids: &[NodeId], high: u32, low: u32) -> Result<SortId, RankFault>
        requires { AreNodes self.now kids.now }
        ensures rank { rank_seen self.now.sorts result ≡ shape_rank (extraction high low) (kid_sorts self.now kids.now) }
        ensures sorts { IsRankOver self.now.sorts result }
    {
        let Some(a) = self.one(kids) else {
            return Err(RankFault::WrongArity);
        };
        let width = self.width(0, a)?;
        if high >= width || low > high {
            return Err(RankFault::BadIndex);
        }
        Ok(SortId::of_width(high - low + 1))
    }

    fn extension(&self, kids: &[NodeId], by: u32) -> Result<SortId, RankFault>
        requires { AreNodes self.now kids.now }
        ensures rank { rank_seen self.now.sorts result ≡ shape_rank (extension by) (kid_sorts self.now kids.now) }
        ensures sorts { IsRankOver self.now.sorts result }
    {
        let Some(a) = self.one(kids) else {
            return Err(RankFault::WrongArity);
        };
        let width = self.width(0, a)?;
        if by > MOST_BITS - width {
            return Err(RankFault::WidthLimit);
        }
        Ok(SortId::of_width(width + by))
    }

    fn rotation(&self, kids: &[NodeId], by: u32) -> Result<SortId, RankFault>
        requires { AreNodes self.now kids.now }
        ensures rank { rank_seen self.now.sorts result ≡ shape_rank (rotation by) (kid_sorts self.now kids.now) }
        ensures sorts { IsRankOver self.now.sorts result }
    {
        let Some(a) = self.one(kids) else {
            return Err(RankFault::WrongArity);
        };
        let width = self.width(0, a)?;
        if by >= width {
            return Err(RankFault::BadIndex);
        }
        Ok(a)
    }

    fn bitwise(&self, kids: &[NodeId]) -> Result<SortId, RankFault>
        requires { AreNodes self.now kids.now }
        ensures rank { rank_seen self.now.sorts result ≡ shape_rank bitwise (kid_sorts self.now kids.now) }
        ensures sorts { IsRankOver self.now.sorts result }
    {
        let Some(a) = self.one(kids) else {
            return Err(RankFault::WrongArity);
        };
        self.width(0, a)?;
        Ok(a)
    }

    fn bitwise_pair(&self, kids: &[NodeId]) -> Result<SortId, RankFault>
        requires { AreNodes self.now kids.now }
        ensures rank { rank_seen self.now.sorts result ≡ shape_rank bitwise_pair (kid_sorts self.now kids.now) }
        ensures sorts { IsRankOver self.now.sorts result }
    {
        let Some((a, b)) = self.two(kids) else {
            return Err(RankFault::WrongArity);
        };
        self.width(0, a)?;
        match self.unlike(1, b, a) {
            Some(fault) => Err(fault),
            None => Ok(a),
        }
    }

    fn bits_comparison(&self, kids: &[NodeId], to: SortId) -> Result<SortId, RankFault>
        requires kids { AreNodes self.now kids.now }
        requires to { to.0 < 3 }
        ensures rank { rank_seen self.now.sorts result ≡ shape_rank (bits_comparison (sort_at self.now.sorts to)) (kid_sorts self.now kids.now) }
        ensures sorts { IsRankOver self.now.sorts result }
    {
        let Some((a, b)) = self.two(kids) else {
            return Err(RankFault::WrongArity);
        };
        self.width(0, a)?;
        match self.unlike(1, b, a) {
            Some(fault) => Err(fault),
            None => Ok(to),
        }
    }

    #[inline(never)]
    fn selection(&self, kids: &[NodeId]) -> Result<SortId, RankFault>
        requires { AreNodes self.now kids.now }
        ensures rank { rank_seen self.now.sorts result ≡ shape_rank selection (kid_sorts self.now kids.now) }
        ensures sorts { IsRankOver self.now.sorts result }
    {
        let Some((a, b)) = self.two(kids) else {
            return Err(RankFault::WrongArity);
        };
        let (index, element) = self.parts(0, a)?;
        match self.unlike(1, b, index) {
            Some(fault) => Err(fault),
            None => Ok(element),
        }
    }

    #[inline(never)]
    fn storing(&self, kids: &[NodeId]) -> Result<SortId, RankFault>
        requires { AreNodes self.now kids.now }
        ensures rank { rank_seen self.now.sorts result ≡ shape_rank storing (kid_sorts self.now kids.now) }
        ensures sorts { IsRankOver self.now.sorts result }
    {
        let Some((a, b, c)) = self.three(kids) else {
            return Err(RankFault::WrongArity);
        };
        let (index, element) = self.parts(0, a)?;
        if let Some(fault) = self.unlike(1, b, index) {
            return Err(fault);
        }
        match self.unlike(2, c, element) {
            Some(fault) => Err(fault),
            None => Ok(a),
        }
    }

    #[inline(never)]
    fn filling(&self, kids: &[NodeId], to: SortId) -> Result<SortId, RankFault>
        requires kids { AreNodes self.now kids.now }
        requires to { IsSortId self.now.sorts to }
        ensures rank { rank_seen self.now.sorts result ≡ shape_rank (filling (sort_at self.now.sorts to)) (kid_sorts self.now kids.now) }
        ensures sorts { IsRankOver self.now.sorts result }
    {
        let Some(a) = self.one(kids) else {
            return Err(RankFault::WrongArity);
        };
        let Some((_, element)) = self.sorts().parts(to) else {
            return Err(RankFault::WrongSort {
                arg: 0,
                have: to,
                want: a,
            });
        };
        match self.unlike(0, a, element) {
            Some(fault) => Err(fault),
            None => Ok(to),
        }
    }

    fn whole_number(&self, kids: &[NodeId], n: i128) -> Result<SortId, RankFault>
        requires { AreNodes self.now kids.now }
        ensures rank { rank_seen self.now.sorts result ≡ shape_rank (whole_number n) (kid_sorts self.now kids.now) }
        ensures sorts { IsRankOver self.now.sorts result }
    {
        if !kids.is_empty() {
            return Err(RankFault::WrongArity);
        }
        if n == i128::MIN {
            return Err(RankFault::BadIndex);
        }
        Ok(SortId::INT)
    }

    fn bit_constant(&self, kids: &[NodeId], width: u32, bits: u128) -> Result<SortId, RankFault>
        requires { AreNodes self.now kids.now }
        ensures rank { rank_seen self.now.sorts result ≡ shape_rank (bit_constant width bits) (kid_sorts self.now kids.now) }
        ensures sorts { IsRankOver self.now.sorts result }
    {
        if !kids.is_empty() {
            return Err(RankFault::WrongArity);
        }
        if width > MOST_BITS {
            return Err(RankFault::WidthLimit);
        }
        if width == 0 || !fits(bits, width) {
            return Err(RankFault::BadIndex);
        }
        Ok(SortId::of_width(width))
    }
}

impl Table {
    ghost use Rattle.term_table.specs.Formulas.{rank_over, trees_at, AreNodes, IsOpOf};
    ghost use Rattle.term_table.specs.Faults.{rank_seen, IsRankOver};

    /// The rank of an operator over operands: the sort of their node, or the first fault. It takes no memory.
    #[tactic(auto, unfolding(crate::specs::Formulas::kind, smt_terms::specs::Rank::shape, smt_terms::specs::Rank::rank))]
    pub fn rank(&self, op: Op, kids: &[NodeId]) -> Result<SortId, RankFault>
        requires kids { AreNodes self.now kids.now }
        requires numbers { IsOpOf self.now op }
        ensures rank { rank_seen self.now.sorts result ≡ rank_over self.now op (trees_at self.now kids.now) }
        ensures sorts { IsRankOver self.now.sorts result }
    {
        // The rare ones stand out of line, so that the others have few registers to save.
        match op {
            Op::Truth(_) => self.uniform(kids, 0, SortId::BOOL, SortId::BOOL),
            Op::Whole(n) => self.whole_number(kids, n),
            Op::Bits { width, bits } => self.bit_constant(kids, width, bits),
            Op::Sym(f) => self.application(kids, f),
            Op::Forall | Op::Exists => self.binder(kids),
            Op::ConstArray(sort) => self.filling(kids, sort),
            Op::Not => self.uniform(kids, 1, SortId::BOOL, SortId::BOOL),
            Op::And | Op::Or => self.several(kids, SortId::BOOL),
            Op::Xor | Op::Implies => self.uniform(kids, 2, SortId::BOOL, SortId::BOOL),
            Op::Equal => self.equation(kids),
            Op::Distinct => self.distinctness(kids),
            Op::Ite => self.choice(kids),
            Op::Neg | Op::Abs => self.uniform(kids, 1, SortId::INT, SortId::INT),
            Op::Sub | Op::Div | Op::Mod => self.uniform(kids, 2, SortId::INT, SortId::INT),
            Op::Add | Op::Mul => self.several(kids, SortId::INT),
            Op::Le | Op::Lt => self.uniform(kids, 2, SortId::INT, SortId::BOOL),
            Op::Select => self.selection(kids),
            Op::Store => self.storing(kids),
            Op::Concat => self.concatenation(kids),
            Op::Extract { high, low } => self.extraction(kids, high, low),
            Op::ZeroExt(by) | Op::SignExt(by) => self.extension(kids, by),
            Op::RotL(by) | Op::RotR(by) => self.rotation(kids, by),
            Op::BvNot | Op::BvNeg => self.bitwise(kids),
            Op::BvComp => self.bits_comparison(kids, SortId::BIT),
            Op::BvUlt | Op::BvUle | Op::BvSlt | Op::BvSle => self.bits_comparison(
                kids,
                SortId::BOOL,
            ),
            Op::BvAnd | Op::BvOr | Op::BvXor | Op::BvAdd | Op::BvMul | Op::BvSub =>
                self.bitwise_pair(kids),
            Op::BvUdiv | Op::BvUrem | Op::BvSdiv | Op::BvSrem | Op::BvSmod => self.bitwise_pair(
                kids,
            ),
            Op::BvShl | Op::BvLshr | Op::BvAshr => self.bitwise_pair(kids),
        }
    }
}
