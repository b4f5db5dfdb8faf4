ghost use Rattle.std.specs.Prelude.{◌≡◌, ℕ, List, map, string_bytes, Some, IfOk};
ghost use Rattle.pgr_words.specs.Commands.{IsVerdict, command_of, command_behind};
ghost use Rattle.pgr_words.specs.Functions.{function_named};
ghost use Rattle.pgr_words.specs.WellFormed.{IsWellFormed};

use crate::command::Command;
use crate::draft::Draft;
use crate::fault::{WordFault, WordsRefused};
use crate::function::Function;
use crate::option::OptionName;
use std::alloc::Global;

/// The command that the words ask for, or the first rule that they break.
///
/// The first word is the function's name. Each later word is two hyphens, an option's name, an equals sign and a value,
/// which is all that follows the first equals sign. Nothing is abbreviated, trimmed or taken from elsewhere. An option
/// that isn't given has its default; where combinations are given, starts and ends may be absent.
/// `Fault` comes exactly where the words break a rule, and tells the first. `Memory` may come at any call.
pub fn read_words(alloc: Global, words: &[String]) -> Result<Command, WordsRefused>
    ensures verdict { IsVerdict result (command_of (map string_bytes words.now)) }
    ensures well_formed { IfOk result IsWellFormed }
{
    let Some((first, later)) = words.split_first() else {
        return Err(WordsRefused::Fault(WordFault::NoFunction));
    };
    match Function::named(first.as_str()) {
        Some((function, options)) => read_options(alloc, function, options, later),
        None => Err(WordsRefused::Fault(WordFault::UnknownFunction)),
    }
}

/// The command of a function with those of its options that the words behind its name give, or the first fault.
fn read_options(
    alloc: Global,
    function: Function,
    options: &[OptionName],
    words: &[String],
) -> Result<Command, WordsRefused>
    ensures verdict { IsVerdict result (command_behind function options.now (map string_bytes words.now)) }
    ensures well_formed { (name : List ℕ) → function_named name ≡ Some (function, options.now) → IfOk result IsWellFormed }
{
    let mut draft = Draft::new(alloc, function);
    for (index, word) in words.iter().enumerate() {
        // The function's name is the first word.
        draft.take(alloc, options, index as u64 + 2, word.as_str())?;
    }
    draft.finish(options)
}

#[cfg(test)]
mod tests {
    use super::*;
    use crate::method::Method;
    use std::alloc::AllocError;
    use std::test::Fail;

    fn words(alloc: Global, texts: &[&str]) -> Result<Vec<String>, AllocError> {
        let mut words = Vec::new(alloc);
        for text in texts {
            words.push(String::from_str(alloc, text)?)?;
        }
        Ok(words)
    }

    fn fault(alloc: Global, texts: &[&str]) -> Result<Option<WordFault>, AllocError> {
        let words = words(alloc, texts)?;
        Ok(match read_words(alloc, words.as_slice()) {
            Err(WordsRefused::Fault(fault)) => Some(fault),
            _ => None,
        })
    }

    #[test]
    fn ids_come_rising_each_once(rt: HostRuntime) -> Result<(), Fail> {
        let words = words(
            rt.alloc(),
            &[
                "pgr_dijkstra",
                "--edges=a=b.csv",
                "--start=7,-2,7,007",
                "--end=-9223372036854775808",
                "--combinations=c.csv",
                "--directed=false",
            ],
        )?;
        let command = read_words(rt.alloc(), words.as_slice())?;
        assert_eq!(rt; command.function, Function::Dijkstra);
        assert_eq!(rt; command.edges.as_str(), "a=b.csv");
        assert_eq!(rt; command.starts.as_slice(), [-2, 7].as_slice());
        assert_eq!(rt; command.ends.as_slice(), [i64::MIN].as_slice());
        assert!(rt; command.combinations.is_some());
        assert!(rt; !command.directed);
        Ok(())
    }

    #[test]
    fn a_matrix_has_vertices_and_no_ends(rt: HostRuntime) -> Result<(), Fail> {
        let words = words(
            rt.alloc(),
            &["pgr_dijkstraCostMatrix", "--vids=2,1", "--edges=a.csv"],
        )?;
        let command = read_words(rt.alloc(), words.as_slice())?;
        assert_eq!(rt; command.function, Function::DijkstraCostMatrix);
        assert_eq!(rt; command.vids.as_slice(), [1, 2].as_slice());
        assert!(rt; command.ends.is_empty());
        assert!(rt; command.directed);
        Ok(())
    }

    #[test]
    fn driving_distance_has_a_start_and_a_distance(rt: HostRuntime) -> Result<(), Fail> {
        let alloc = rt.alloc();
        let words = words(
            alloc,
            &[
                "pgr_drivingDistance",
                "--equicost=true",
                "--distance=009223372036854775807",
                "--start=3,1",
                "--edges=a.csv",
            ],
        )?;
        let command = read_words(alloc, words.as_slice())?;
        assert_eq!(rt; command.function, Function::DrivingDistance);
        assert_eq!(rt; command.starts.as_slice(), [1, 3].as_slice());
        assert_eq!(rt; command.distance, 9_223_372_036_854_775_807);
        assert!(rt; command.equicost);
        assert!(rt; command.directed);
        Ok(())
    }

    #[test]
    fn several_routes_have_a_count_from_one_to_a_million(rt: HostRuntime) -> Result<(), Fail> {
        let alloc = rt.alloc();
        let name = "pgr_KSP";
        let words = words(
            alloc,
            &[
                name,
                "--K=0001000000",
                "--end=2",
                "--start=1",
                "--edges=a.csv",
            ],
        )?;
        let command = read_words(alloc, words.as_slice())?;
        assert_eq!(rt; command.function, Function::Ksp);
        assert_eq!(rt; command.k, 1_000_000);
        assert!(rt; command.directed);
        let no_count = WordFault::MissingOption(OptionName::K);
        assert_eq!(rt;
            fault(alloc, &[name, "--edges=a", "--combinations=p"])?,
            Some(no_count)
        );
        let unknown = WordFault::UnknownOption(2);
        assert_eq!(rt; fault(alloc, &[name, "--k=2"])?, Some(unknown));
        let bad = WordFault::BadValue(OptionName::K);
        for count in ["--K=", "--K=0", "--K=+1", "--K=1000001"] {
            assert_eq!(rt; fault(alloc, &[name, count])?, Some(bad));
        }
        Ok(())
    }

    #[test]
    fn an_order_of_methods_is_kept_as_it_stands(rt: HostRuntime) -> Result<(), Fail> {
        let alloc = rt.alloc();
        let name = "pgr_contraction";
        let words = words(
            alloc,
            &[
                name,
                "--forbidden=7,-1,7",
                "--max_cycles=0001000000",
                "--order=2,1,1",
                "--edges=a.csv",
            ],
        )?;
        let command = read_words(alloc, words.as_slice())?;
        assert_eq!(rt; command.function, Function::Contraction);
        let order = [Method::Linear, Method::DeadEnd, Method::DeadEnd];
        assert_eq!(rt; command.order.as_slice(), order.as_slice());
        assert_eq!(rt; command.max_cycles, 1_000_000);
        assert_eq!(rt; command.forbidden.as_slice(), [-1, 7].as_slice());
        let no_order = WordFault::MissingOption(OptionName::Order);
        assert_eq!(rt; fault(alloc, &[name, "--edges=a"])?, Some(no_order));
        let bad = WordFault::BadValue(OptionName::Order);
        for order in ["--order=", "--order=01", "--order=1,", "--order=3"] {
            assert_eq!(rt; fault(alloc, &[name, order])?, Some(bad));
        }
        let mut many = String::from_str(alloc, "--order=1")?;
        for _ in 0..64 {
            many.push_str(",2")?;
        }
        assert_eq!(rt;
            fault(alloc, &["pgr_contraction", many.as_str()])?,
            Some(bad)
        );
        Ok(())
    }

    #[test]
    fn driving_distance_needs_its_options_in_order(rt: HostRuntime) -> Result<(), Fail> {
        let alloc = rt.alloc();
        let name = "pgr_drivingDistance";
        let no_start = WordFault::MissingOption(OptionName::Start);
        assert_eq!(rt; fault(alloc, &[name, "--edges=a.csv"])?, Some(no_start));
        let no_distance = WordFault::MissingOption(OptionName::Distance);
        assert_eq!(rt;
            fault(alloc, &[name, "--edges=a", "--start=1"])?,
            Some(no_distance)
        );
        let unknown = WordFault::UnknownOption(2);
        assert_eq!(rt;
            fault(alloc, &[name, "--combinations=p.csv"])?,
            Some(unknown)
        );
        let bad = WordFault::BadValue(OptionName::Distance);
        for distance in [
            "--distance=",
            "--distance=-1",
            "--distance=+1",
            "--distance=1.0",
            "--distance=9223372036854775808",
        ] {
            assert_eq!(rt; fault(alloc, &[name, distance])?, Some(bad), "{distance}");
        }
        Ok(())
    }

    #[test]
    fn the_first_fault_is_told(rt: HostRuntime) -> Result<(), Fail> {
        let alloc = rt.alloc();
        assert_eq!(rt; fault(alloc, &[])?, Some(WordFault::NoFunction));
        assert_eq!(rt;
            fault(alloc, &["pgr_tsp"])?,
            Some(WordFault::UnknownFunction)
        );
        assert_eq!(rt;
            fault(alloc, &["pgr_dijkstraCost", "-v"])?,
            Some(WordFault::BadWord(2))
        );
        assert_eq!(rt;
            fault(alloc, &["pgr_dijkstra", "--K=2"])?,
            Some(WordFault::UnknownOption(2))
        );
        assert_eq!(rt;
            fault(
                alloc,
                &["pgr_dijkstra", "--edges=a.csv", "--start=1", "--start=2"]
            )?,
            Some(WordFault::RepeatedOption(OptionName::Start))
        );
        assert_eq!(rt;
            fault(alloc, &["pgr_dijkstra", "--start=1,x", "--bogus=1"])?,
            Some(WordFault::BadValue(OptionName::Start))
        );
        assert_eq!(rt;
            fault(alloc, &["pgr_dijkstra", "--edges=a.csv", "--start=1"])?,
            Some(WordFault::MissingOption(OptionName::End))
        );
        Ok(())
    }

    #[test]
    fn values_are_judged_by_their_forms(rt: HostRuntime) -> Result<(), Fail> {
        let alloc = rt.alloc();
        let bad = Some(WordFault::BadValue(OptionName::Start));
        for (start, want) in [
            ("--start=", bad),
            ("--start=1,,2", bad),
            ("--start= 1", bad),
            ("--start=9223372036854775808", bad),
            ("--start=-9223372036854775809", bad),
            ("--start=9223372036854775807,-9223372036854775808", None),
        ] {
            let got = fault(alloc, &["pgr_dijkstra", "--edges=a.csv", start, "--end=1"])?;
            assert_eq!(rt; got, want, "{start}");
        }
        let zeros = words(
            alloc,
            &[
                "pgr_dijkstraCost",
                "--edges=a.csv",
                "--start=-0,0",
                "--end=1",
            ],
        )?;
        let command = read_words(alloc, zeros.as_slice())?;
        assert_eq!(rt; command.starts.as_slice(), [0].as_slice());
        Ok(())
    }

    #[test]
    fn a_file_name_has_at_most_4096_bytes(rt: HostRuntime) -> Result<(), Fail> {
        let alloc = rt.alloc();
        let mut edges = String::from_str(alloc, "--edges=")?;
        for _ in 0..4096 {
            edges.push_str("n")?;
        }
        let missing = WordFault::MissingOption(OptionName::Start);
        assert_eq!(rt;
            fault(alloc, &["pgr_dijkstra", edges.as_str()])?,
            Some(missing)
        );
        edges.push_str("n")?;
        let bad = WordFault::BadValue(OptionName::Edges);
        assert_eq!(rt; fault(alloc, &["pgr_dijkstra", edges.as_str()])?, Some(bad));
        Ok(())
    }

    #[test]
    fn a_list_has_at_most_65536_ids(rt: HostRuntime) -> Result<(), Fail> {
        let alloc = rt.alloc();
        let mut list = String::from_str(alloc, "--vids=1")?;
        for _ in 1..65536 {
            list.push_str(",1")?;
        }
        let missing = WordFault::MissingOption(OptionName::Edges);
        assert_eq!(rt;
            fault(alloc, &["pgr_dijkstraCostMatrix", list.as_str()])?,
            Some(missing)
        );
        list.push_str(",1")?;
        let bad = WordFault::BadValue(OptionName::Vids);
        assert_eq!(rt;
            fault(alloc, &["pgr_dijkstraCostMatrix", list.as_str()])?,
            Some(bad)
        );
        Ok(())
    }
}
