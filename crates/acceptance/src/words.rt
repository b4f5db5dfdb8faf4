use crate::case::Case;
use crate::tables::A;
use pgr_run::Status;
use std::process::Abort;
use std::test::Fail;

/// The line of words is refused with this message.
fn refuses(rt: &(impl Abort + AllocGlobal), line: &str, message: &str) -> Result<(), Fail> {
    Case::over(A).refuses(rt, line, Status::Words, message)
}

#[test]
fn a_first_word_that_names_no_function_is_refused(rt: HostRuntime) -> Result<(), Fail> {
    refuses(&rt, "", "pgr: no function\n")?;
    refuses(&rt, "pgr_tsp", "pgr: unknown function\n")
}

#[test]
fn a_word_that_gives_no_option_of_the_function_is_refused(rt: HostRuntime) -> Result<(), Fail> {
    refuses(&rt, "pgr_dijkstra -v", "pgr: bad word 2\n")?;
    refuses(&rt, "pgr_dijkstra --K=2", "pgr: unknown option in word 2\n")
}

#[test]
fn an_option_that_is_given_twice_is_refused(rt: HostRuntime) -> Result<(), Fail> {
    refuses(
        &rt,
        "pgr_dijkstra --edges=a.csv --start=1 --start=2",
        "pgr: option start repeated\n",
    )
}

#[test]
fn the_first_word_that_breaks_a_rule_is_told(rt: HostRuntime) -> Result<(), Fail> {
    refuses(
        &rt,
        "pgr_dijkstra --edges=a.csv --start=1,x --bogus=1",
        "pgr: bad value for start\n",
    )
}

#[test]
fn a_number_past_64_bits_is_refused(rt: HostRuntime) -> Result<(), Fail> {
    refuses(
        &rt,
        "pgr_dijkstra --edges=a.csv --start=1 --end=9223372036854775808",
        "pgr: bad value for end\n",
    )
}

#[test]
fn a_needed_option_that_is_missing_is_told(rt: HostRuntime) -> Result<(), Fail> {
    refuses(
        &rt,
        "pgr_dijkstra --edges=a.csv --start=1",
        "pgr: option end missing\n",
    )
}
