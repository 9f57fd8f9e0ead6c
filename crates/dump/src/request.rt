//! What the command line asks for.

ghost use Rattle.std.specs.Prelude.{◌≡◌, [], map, length, Some, string_bytes, slice_index_or};
ghost use Rattle.dump.specs.Asking.{width_named, NamesCount, AsksNodes, Asked, usage_text};

use memory::Width;
use std::error::Error;
use std::fmt;

/// What the program is asked to print.
#[derive(Clone, Copy)]
pub struct Request {
    /// How many bytes a cell of the image has.
    pub width: Width,
    /// How many nodes of an index to print, or none for rows of cells.
    pub nodes: Option<u64>,
}

/// Why a command line is refused.
#[derive(Clone, Copy, Debug, PartialEq, Eq)]
pub enum Usage {
    /// There is no argument.
    NoWidth,
    /// The first argument is no cell width.
    StrangeWidth,
    /// The second argument is no number.
    StrangeCount,
    /// There are further arguments.
    TooMany,
}

impl fmt::Display for Usage {
    ghost output = { λ u. Some (usage_text u) };

    fn fmt<W: fmt::Write>(&self, f: &mut fmt::Formatter<W>) -> fmt::Result {
        f.write_str(match self {
            Usage::NoWidth => "the cell width is missing: 2, 4 or 8",
            Usage::StrangeWidth => "the cell width must be 2, 4 or 8",
            Usage::StrangeCount => "the node count must be a decimal number below 2^64",
            Usage::TooMany => {
                "two arguments are expected at most: the cell width and the node count"
            }
        })
    }
}

impl Error for Usage {}

/// The cell width that a text names.
// stays a function: which texts name a width is this program's, and a type around `Width` for a `FromStr` would be longer
pub fn width_from(text: &str) -> Result<Width, Usage>
    ensures { result ≡ width_named text.now }
{
    match text {
        "2" => Ok(Width::Two),
        "4" => Ok(Width::Four),
        "8" => Ok(Width::Eight),
        _ => Err(Usage::StrangeWidth),
    }
}

/// The node count that a text names.
pub fn count_from(text: &str) -> Result<u64, Usage>
    ensures { NamesCount text.now result }
{
    text.parse::<u64>().map_err(|_| Usage::StrangeCount)
}

/// A width and a node count as a request.
fn nodes_from(width: &str, count: &str) -> Result<Request, Usage>
    ensures { AsksNodes width.now count.now result }
{
    let counted = count_from(count);
    Ok(Request {
        width: width_from(width)?,
        nodes: Some(counted?),
    })
}

impl Request {
    /// Reads the arguments that follow the program's name.
    pub fn from_args(args: &[String]) -> Result<Request, Usage>
        ensures { Asked (length args.now) (slice_index_or (map string_bytes args.now) 0 []) (slice_index_or (map string_bytes args.now) 1 []) result }
    {
        match args {
            [] => Err(Usage::NoWidth),
            [width] => {
                let width = width_from(width.as_str())?;
                Ok(Request { width, nodes: None })
            }
            [width, count] => nodes_from(width.as_str(), count.as_str()),
            _ => Err(Usage::TooMany),
        }
    }
}

#[cfg(test)]
mod tests {
    use super::*;
    use std::test::Fail;

    #[test]
    fn a_width_is_one_digit(rt: HostRuntime) {
        assert!(rt; matches!(width_from("2"), Ok(Width::Two)));
        assert!(rt; matches!(width_from("4"), Ok(Width::Four)));
        assert!(rt; matches!(width_from("8"), Ok(Width::Eight)));
        for text in ["", "3", "02", "+2", "2 ", "two"] {
            assert!(rt;
                matches!(width_from(text), Err(Usage::StrangeWidth)),
                "{}",
                text
            );
        }
    }

    #[test]
    fn one_argument_or_two(rt: HostRuntime) -> Result<(), Fail> {
        let heap = rt.alloc();
        let mut args = Vec::new(heap);
        assert!(rt; matches!(Request::from_args(args.as_slice()), Err(Usage::NoWidth)));
        args.push(String::from_str(heap, "4")?)?;
        assert!(rt;
            matches!(
                Request::from_args(args.as_slice()),
                Ok(Request {
                    width: Width::Four,
                    nodes: None
                })
            )
        );
        args.push(String::from_str(heap, "12")?)?;
        assert!(rt;
            matches!(
                Request::from_args(args.as_slice()),
                Ok(Request {
                    width: Width::Four,
                    nodes: Some(12)
                })
            )
        );
        args.push(String::from_str(heap, "1")?)?;
        assert!(rt; matches!(Request::from_args(args.as_slice()), Err(Usage::TooMany)));
        Ok(())
    }

    #[test]
    fn a_count_is_a_number(rt: HostRuntime) {
        assert!(rt; matches!(count_from("0"), Ok(0)));
        assert!(rt; matches!(count_from("18446744073709551615"), Ok(u64::MAX)));
        for text in ["", "-1", "two", "18446744073709551616"] {
            assert!(rt;
                matches!(count_from(text), Err(Usage::StrangeCount)),
                "{}",
                text
            );
        }
    }
}
