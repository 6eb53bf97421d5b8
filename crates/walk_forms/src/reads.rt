// An element that is read, and a list that is lent to be written and is looked at.
ghost use Rattle.std.specs.Prelude.{◌≡◌, ◌<◌, ◌-◌, length, get_or};
ghost use Rattle.walk_forms.specs.Filled.{rec_of};

use crate::fills::Rec;

pub fn get(list: &[Rec], at: usize) -> Rec
    requires { at < length list.now }
    ensures { result ≡ get_or list.now at (rec_of 0) }
{
    list[at]
}

pub fn look(list: &[Rec], at: usize, other: Rec) -> Rec
    ensures { result ≡ get_or list.now at other }
{
    if at < list.len() {
        return list[at];
    }
    other
}

pub fn rest(list: &[Rec], x: usize) -> usize
    ensures { result ≡ length list.now - x }
{
    let n = list.len();
    if n < x { 0 } else { n - x }
}

pub fn rest_lent(list: &mut [Rec], x: usize) -> usize
    ensures { (result ≡ length list.old - x) × (list.new ≡ list.old) }
{
    rest(list, x)
}
