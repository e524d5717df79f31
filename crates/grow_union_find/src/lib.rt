// Union-find with parents: loose rows in which a forest grows, row v for the variable v.
// A class row is a union-find pointer: it names a lower member of the class or, at the root, itself, so that the root is the lowest member
// and names the class. A parent row stands at a root only, and may name any member of the parent's class. So two classes become one by a
// single store, whatever their sizes. The price: a row tells its class only by way of `root`, and exact rows take a pass at the end (`grow_passes`).

#![tactic(auto)]

ghost use Rattle.std.specs.Prelude.{ℕ, ◌<◌, ◌≡◌, List, [], ◌∷◌, ◌≢◌, length, get_or, set};
ghost use Rattle.grow_union_find.specs.InnerLoose.{Falling, FindsRoot, Growing, Pending, Roots, Stepped, Grew};

use terms::Variable;

// The two that are left to be joined, the deeper first; the second is 0 where nothing is left.
#[derive(Clone, Copy)]
struct Rest(Variable, Variable);

// Joins the chain of `other`, that is, its class and the classes above it, to the chain of `deep`, which is as deep or deeper: a walk up
// both, with at most one step for each level of each.
pub fn merge(
    depths: &[u32],
    classes: &mut [u32],
    parents: &mut [u32],
    deep: Variable,
    other: Variable,
)
    requires rows { Growing depths.now classes.old parents.old }
    requires pair { Pending depths.now deep.0 other.0 }
    ensures joined { Grew depths.now classes.old parents.old (deep.0 ∷ other.0 ∷ [])
        classes.new parents.new }
{
    let mut left = Rest(deep, other);
    // A walk up two chains at once: each step says which two are next, and the walk ends where nothing is left, not after a known number of steps.
    while left.1.0 != 0 {
        left = advance(depths, classes, parents, left);
    }
}

// Finds the roots of the two that are left, and joins these by one step; nothing is left where both have one root.
fn advance(depths: &[u32], classes: &mut [u32], parents: &mut [u32], left: Rest) -> Rest
    requires rows { Growing depths.now classes.old parents.old }
    requires pair { Pending depths.now left.0.0 left.1.0 × (left.1.0 ≢ 0) }
    ensures stepped { Stepped depths.now classes.old parents.old left.0.0 left.1.0
        classes.new parents.new result.0.0 result.1.0 }
{
    let p = root(classes, left.0);
    let q = root(classes, left.1);
    if p.0 == q.0 {
        return Rest(p, Variable(0));
    }
    step(depths, classes, parents, p, q)
}

// Find, with path halving: the root of the class of v. On the way every other row is pointed past the row that it pointed to, which keeps
// later ways short.
fn root(classes: &mut [u32], v: Variable) -> Variable
    requires falling { Falling classes.old v.0 }
    ensures found { FindsRoot classes.old classes.new v.0 result.0 }
{
    let mut at = v.0;
    let mut next = classes[at as usize];
    // A walk along the chain: the next row is the one that a row names, and the root names itself.
    while next != at {
        let over = classes[next as usize];
        classes[at as usize] = over;
        at = over;
        next = classes[at as usize];
    }
    Variable(at)
}

// One step at the two roots p and q, of which p is as deep or deeper: of one block they become one class, and else q becomes a class above p.
fn step(depths: &[u32], classes: &mut [u32], parents: &mut [u32], p: Variable, q: Variable) -> Rest
    requires roots { Roots depths.now classes.old parents.old p.0 q.0 }
    ensures stepped { Stepped depths.now classes.old parents.old p.0 q.0
        classes.new parents.new result.0.0 result.1.0 }
{
    if depths[p.0 as usize] == depths[q.0 as usize] {
        return unite(classes, parents, p, q);
    }
    hang(depths, parents, p, q)
}

// Union: makes one class of two roots of one block. The lower becomes the root, since the lowest member names the class; no rank is kept.
fn unite(classes: &mut [u32], parents: &mut [u32], p: Variable, q: Variable) -> Rest
    requires roots { (depths : List ℕ) × Roots depths classes.old parents.old p.0 q.0 }
    ensures stepped { (depths : List ℕ) → Roots depths classes.old parents.old p.0 q.0
        → get_or depths p.0 0 ≡ get_or depths q.0 0
        → Stepped depths classes.old parents.old p.0 q.0
        classes.new parents.new result.0.0 result.1.0 }
{
    if p.0 < q.0 {
        return point(classes, parents, p, q);
    }
    point(classes, parents, q, p)
}

// Points the root `high` to the lower root `low` of its block, and takes away its parent, which is left to be joined to the one class.
fn point(classes: &mut [u32], parents: &mut [u32], low: Variable, high: Variable) -> Rest
    requires inside { (high.0 < length classes.old) × (high.0 < length parents.old) }
    ensures pointed { (classes.new ≡ set classes.old high.0 low.0)
        × (parents.new ≡ set parents.old high.0 0)
        × (result.0.0 ≡ low.0) × (result.1.0 ≡ get_or parents.old high.0 0) }
{
    let at = high.0 as usize;
    let up = parents[at];
    classes[at] = low.0;
    parents[at] = 0;
    Rest(low, Variable(up))
}

// Where q is of a lesser block than the root p: the deeper of q and of p's parent becomes p's parent, and the two are left to be joined.
fn hang(depths: &[u32], parents: &mut [u32], p: Variable, q: Variable) -> Rest
    requires roots { (classes : List ℕ) × Roots depths.now classes parents.old p.0 q.0 }
    ensures stepped { (classes : List ℕ) → Roots depths.now classes parents.old p.0 q.0
        → get_or depths.now p.0 0 ≢ get_or depths.now q.0 0
        → Stepped depths.now classes parents.old p.0 q.0 classes parents.new result.0.0 result.1.0 }
{
    let at = p.0 as usize;
    let up = parents[at];
    if depths[up as usize] < depths[q.0 as usize] {
        parents[at] = q.0;
        return Rest(q, Variable(up));
    }
    Rest(Variable(up), q)
}
