// The one name that a normal form has for a flag or an argument.
ghost use Rattle.std.specs.Prelude.{◌≡◌};
ghost use Rattle.rules.specs.Plain.{Plain};
ghost use Rattle.rules.specs.NormalForm.{one_name, one_named};
ghost use Rattle.meta.specs.Items.{name_in, item_of};

use meta::item::{Item, ShortLong};

// For usage the short of a name with both, otherwise the long, as the rules' own parameter says.
pub(crate) fn one_name(name: ShortLong, for_usage: bool) -> ShortLong
    ensures { (p : Plain) → name_in p result ≡ one_name for_usage (name_in p name) }
{
    match name {
        ShortLong::Both(short, long) => {
            if for_usage {
                ShortLong::Short(short)
            } else {
                ShortLong::Long(long)
            }
        }
        ShortLong::Short(_) | ShortLong::Long(_) => name,
    }
}

pub(crate) fn one_named(item: Item, for_usage: bool) -> Item
    ensures { (p : Plain) → item_of p result ≡ one_named for_usage (item_of p item) }
{
    match item {
        Item::Flag { name, env, help } => Item::Flag {
            name: one_name(name, for_usage),
            env,
            help,
        },
        Item::Argument {
            name,
            metavar,
            env,
            help,
        } => Item::Argument {
            name: one_name(name, for_usage),
            metavar,
            env,
            help,
        },
        Item::Any { .. } | Item::Positional { .. } | Item::Command { .. } => item,
    }
}
