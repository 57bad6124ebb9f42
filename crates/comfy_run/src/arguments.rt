//! The settings that the arguments after the program's name mean.

ghost use Rattle.std.specs.Prelude.{◌≡◌};
ghost use Rattle.std.specs.Char.{is_ascii_digit};
ghost use Rattle.std.specs.List.{list_all};
ghost use Rattle.comfy_run.specs.Arguments.{arrangement_for, number_for, settings_for, width_for};

use crate::settings::Settings;
use comfy_parts::content_split::are_digits;
use comfy_parts::style::ContentArrangement;
use comfy_parts::style::presets::by_name;

const MOST_DIGITS: usize = 5;

/// The settings that `args`, the arguments after the program's name, mean: a width, an arrangement
/// and a preset, in this order. `None` if an argument is unknown, or there are more than three
/// arguments. Arguments at the end may be missing: then the width isn't set, the arrangement is
/// `Disabled`, and the style is `ASCII_FULL`.
pub fn settings_of(args: &[&str]) -> Option<Settings>
    ensures { result ≡ settings_for args.now }
{
    let (width, arrangement, style) = match args {
        [] => ("-", "disabled", "ASCII_FULL"),
        [width] => (*width, "disabled", "ASCII_FULL"),
        [width, arrangement] => (*width, *arrangement, "ASCII_FULL"),
        [width, arrangement, style] => (*width, *arrangement, *style),
        _ => return None,
    };
    Some(Settings {
        width: width_of(width)?,
        arrangement: arrangement_of(arrangement)?,
        style: by_name(style)?,
    })
}

// The width that an argument means: `Some(None)` for a hyphen, and `None` for an unknown argument.
fn width_of(argument: &str) -> Option<Option<u16>>
    ensures { result ≡ width_for argument.now }
{
    if argument == "-" {
        return Some(None);
    }
    number_of(argument).map(Some)
}

// The number of a text of one to five digits, at most 65535; `None` for any other text. `parse`
// alone would also accept a plus sign and more zeros.
fn number_of(argument: &str) -> Option<u16>
    ensures { result ≡ number_for argument.now }
{
    if argument.len() > MOST_DIGITS || !are_digits(argument.as_bytes()) {
        return None;
    }
    argument.parse::<u16>().ok()
}

fn arrangement_of(argument: &str) -> Option<ContentArrangement>
    ensures { result ≡ arrangement_for argument.now }
{
    match argument {
        "disabled" => Some(ContentArrangement::Disabled),
        "dynamic" => Some(ContentArrangement::Dynamic),
        "full" => Some(ContentArrangement::DynamicFullWidth),
        _ => None,
    }
}
