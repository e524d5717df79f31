// Lent rows and the level table, read with no index that could be out of range, and whether every row is right.

ghost use Rattle.std.specs.Prelude.{◌≡◌, false, get_or};
ghost use Rattle.forest_theory.specs.Reach.{Deeper};
ghost use Rattle.forest_theory.specs.Tables.{row};
ghost use Rattle.forest_tables.specs.InnerTabled.{tabled, existential_in, universal_in};
ghost use Rattle.forest_tables.specs.InnerRows.{Tells, NamesClass, RightClass, RightParent, RightRow, BadFound};

use terms::{Level, Variable};

// The first variable whose rows are not right.
pub fn first_bad(
    n: u32,
    levels: &[u32],
    universals: &[bool],
    classes: &[u32],
    parents: &[u32],
) -> Option<Variable>
    ensures first { BadFound (RightRow n levels.now universals.now classes.now parents.now) n result }
{
    for number in 1..=n {
        let v = Variable::new(number);
        if !row_is_right(n, levels, universals, classes, parents, v) {
            return Some(v);
        }
    }
    None
}

// Whether the rows of v are right: 0 and 0 for a universal; for an existential that names its class a parent that is 0 or right; for any other a
// right class row, and no parent.
fn row_is_right(
    n: u32,
    levels: &[u32],
    universals: &[bool],
    classes: &[u32],
    parents: &[u32],
    v: Variable,
) -> bool
    ensures tells { Tells result (RightRow n levels.now universals.now classes.now parents.now v.0) }
{
    let class = row_of(n, classes, v);
    let parent = row_of(n, parents, v);
    if !existential_at(n, universals, v) {
        if class.0 != 0 {
            return false;
        }
        if parent.0 != 0 {
            return false;
        }
        return true;
    }
    if class.0 != v.0 {
        if parent.0 != 0 {
            return false;
        }
        return class_is_right(n, levels, universals, classes, v);
    }
    if parent.0 == 0 {
        return true;
    }
    parent_is_right(n, levels, universals, classes, parents, v)
}

// Whether the class row of v is right: at most v, a class name, and of v's block.
fn class_is_right(n: u32, levels: &[u32], universals: &[bool], classes: &[u32], v: Variable) -> bool
    ensures tells { Tells result (RightClass n levels.now universals.now classes.now v.0) }
{
    let class = row_of(n, classes, v);
    if v.0 < class.0 {
        return false;
    }
    if !names_class(n, universals, classes, class) {
        return false;
    }
    let block = level_at(levels, class);
    let own = level_at(levels, v);
    if block.0 != own.0 {
        return false;
    }
    true
}

// Whether the parent row of the class name v is right: the parent is a class name too, and its block is less.
fn parent_is_right(
    n: u32,
    levels: &[u32],
    universals: &[bool],
    classes: &[u32],
    parents: &[u32],
    v: Variable,
) -> bool
    requires name { NamesClass n universals.now classes.now v.0 }
    ensures tells { Tells result (RightParent n levels.now universals.now classes.now parents.now v.0) }
{
    let parent = row_of(n, parents, v);
    if !names_class(n, universals, classes, parent) {
        return false;
    }
    let block = level_at(levels, parent);
    let own = level_at(levels, v);
    if own.0 <= block.0 {
        return false;
    }
    true
}

// Whether c is a class name: an existential that names itself.
fn names_class(n: u32, universals: &[bool], classes: &[u32], c: Variable) -> bool
    ensures tells { Tells result (NamesClass n universals.now classes.now c.0) }
{
    if !existential_at(n, universals, c) {
        return false;
    }
    let class = row_of(n, classes, c);
    if class.0 != c.0 {
        return false;
    }
    true
}

// What lent rows say of v: row v - 1, and 0 for a variable outside 1 to n.
pub fn row_of(n: u32, rows: &[u32], v: Variable) -> Variable
    ensures read { result.0 ≡ row n rows.now v.0 }
{
    let number = v.0;
    if number == 0 {
        return Variable::new(0);
    }
    if n < number {
        return Variable::new(0);
    }
    let at = (number - 1) as usize;
    if at < rows.len() {
        Variable::new(rows[at])
    } else {
        Variable::new(0)
    }
}

// The level of v by the level table; 0 past its end.
pub fn level_at(levels: &[u32], v: Variable) -> Level
    ensures read { result.0 ≡ get_or levels.now v.0 0 }
{
    let at = v.0 as usize;
    if at < levels.len() {
        Level::new(levels[at])
    } else {
        Level::new(0)
    }
}

// The flag of v; none past the end of the table.
pub fn flag_at(flags: &[bool], v: Variable) -> bool
    ensures read { result ≡ get_or flags.now v.0 false }
{
    let at = v.0 as usize;
    if at < flags.len() { flags[at] } else { false }
}

// Whether v is one of the variables 1 to n and existential.
pub fn existential_at(n: u32, universals: &[bool], v: Variable) -> bool
    ensures told { result ≡ existential_in n universals.now v.0 }
{
    if v.0 == 0 {
        return false;
    }
    if n < v.0 {
        return false;
    }
    !flag_at(universals, v)
}

// Whether v is one of the variables 1 to n and universal.
pub fn universal_at(n: u32, universals: &[bool], v: Variable) -> bool
    ensures told { result ≡ universal_in n universals.now v.0 }
{
    if v.0 == 0 {
        return false;
    }
    if n < v.0 {
        return false;
    }
    flag_at(universals, v)
}

// Whether v is an existential deeper than x.
pub fn is_deeper(n: u32, levels: &[u32], universals: &[bool], x: Variable, v: Variable) -> bool
    ensures told { Tells result (Deeper (tabled n levels.now universals.now) x.0 v.0) }
{
    if !existential_at(n, universals, v) {
        return false;
    }
    if level_at(levels, v).0 <= level_at(levels, x).0 {
        return false;
    }
    true
}
