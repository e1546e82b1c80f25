//! What `clap` found for a subcommand, read as its request.
ghost use Rattle.std.specs.Prelude.{◌≡◌, ◌≤◌, IfSome, option_map};
ghost use Rattle.clap.specs.Words.{first_of, found_of, rows_of, subcommand_rows_of};
ghost use Rattle.ice_flow_words.specs.Reading.{number_in, number_of, workers_of, build_of, back_of, play_net_of, play_bits_of, time_of, sample_of, asked_of, asked_in};
ghost use Rattle.ice_flow_words.specs.Views.{build_view, back_view, net_view, bits_view, time_view, sample_view, request_view, IsInLimits};
ghost use Rattle.ice_flow_words.specs.Command.{most_workers};

use crate::request::{
    BackRequest, BuildRequest, PlayBitsRequest, PlayNetRequest, Request, SampleRequest, TimeRequest,
};
use clap::ArgMatches;

// The first value of an argument.
fn word_of<'a>(found: &ArgMatches<'a>, id: &str) -> Option<&'a str>
    ensures { option_map (λ s. s.now) result ≡ first_of id.now (rows_of (found_of found.now)) }
{
    found.get_str(id)
}

// The number that a text writes, where it is one from the least to the most.
#[tactic(auto, using(crate::proofs::Numbers::out_of_range))]
fn number_in(text: &str, least: u64, most: u64) -> Option<u64>
    ensures value { result ≡ number_in least most text.now }
    ensures range { IfSome result (λ n. (least ≤ n) × (n ≤ most)) }
{
    match text.parse::<u64>() {
        Ok(number) => {
            if least <= number && number <= most {
                Some(number)
            } else {
                None
            }
        }
        Err(_) => None,
    }
}

// The number that was found for an argument.
fn number_of(found: &ArgMatches<'_>, id: &str, least: u64, most: u64) -> Option<u64>
    ensures value { result ≡ number_of id.now least most (rows_of (found_of found.now)) }
    ensures range { IfSome result (λ n. (least ≤ n) × (n ≤ most)) }
{
    match word_of(found, id) {
        Some(text) => number_in(text, least, most),
        None => None,
    }
}

// The number from one to the most that was found for an argument.
fn count_of(found: &ArgMatches<'_>, id: &str, most: u32) -> Option<u32>
    ensures value { result ≡ number_of id.now 1 most (rows_of (found_of found.now)) }
    ensures range { IfSome result (λ n. (1 ≤ n) × (n ≤ most)) }
{
    match number_of(found, id, 1, u64::from(most)) {
        Some(number) => Some(number as u32),
        None => None,
    }
}

fn workers_of(found: &ArgMatches<'_>) -> Option<u32>
    ensures value { result ≡ workers_of (rows_of (found_of found.now)) }
    ensures range { IfSome result (λ n. (1 ≤ n) × (n ≤ most_workers)) }
{
    count_of(found, "workers", 8)
}

fn build_of<'a>(found: &ArgMatches<'a>) -> Option<BuildRequest<'a>>
    ensures value { option_map build_view result ≡ build_of (rows_of (found_of found.now)) }
    ensures range { IfSome result (λ w. IsInLimits (Request.Build w)) }
{
    let chip = word_of(found, "CHIP")?;
    let package_name = word_of(found, "PACKAGE")?;
    let pcf = word_of(found, "PCF")?;
    let blif = word_of(found, "BLIF")?;
    let asc = word_of(found, "ASC")?;
    let seed = number_of(found, "seed", 0, u64::MAX)?;
    let rounds = count_of(found, "rounds", 64)?;
    let workers = workers_of(found)?;
    let opening = number_of(found, "opening", 0, 1)?;
    Some(BuildRequest {
        chip,
        package_name,
        pcf,
        blif,
        asc,
        pins: word_of(found, "pins"),
        report: word_of(found, "report"),
        seed,
        rounds,
        workers,
        opening: opening == 1,
    })
}

fn back_of<'a>(found: &ArgMatches<'a>) -> Option<BackRequest<'a>>
    ensures { option_map back_view result ≡ back_of (rows_of (found_of found.now)) }
{
    let chip = word_of(found, "CHIP")?;
    let package_name = word_of(found, "PACKAGE")?;
    let asc = word_of(found, "ASC")?;
    let blif = word_of(found, "BLIF")?;
    Some(BackRequest {
        chip,
        package_name,
        asc,
        blif,
    })
}

fn play_net_of<'a>(found: &ArgMatches<'a>) -> Option<PlayNetRequest<'a>>
    ensures { option_map net_view result ≡ play_net_of (rows_of (found_of found.now)) }
{
    let blif = word_of(found, "BLIF")?;
    let levels = word_of(found, "LEVELS")?;
    Some(PlayNetRequest { blif, levels })
}

fn play_bits_of<'a>(found: &ArgMatches<'a>) -> Option<PlayBitsRequest<'a>>
    ensures { option_map bits_view result ≡ play_bits_of (rows_of (found_of found.now)) }
{
    let chip = word_of(found, "CHIP")?;
    let package_name = word_of(found, "PACKAGE")?;
    let asc = word_of(found, "ASC")?;
    let levels = word_of(found, "LEVELS")?;
    Some(PlayBitsRequest {
        chip,
        package_name,
        asc,
        levels,
    })
}

fn time_of<'a>(found: &ArgMatches<'a>) -> Option<TimeRequest<'a>>
    ensures { option_map time_view result ≡ time_of (rows_of (found_of found.now)) }
{
    let chip = word_of(found, "CHIP")?;
    let package_name = word_of(found, "PACKAGE")?;
    let asc = word_of(found, "ASC")?;
    let delays = word_of(found, "DELAYS")?;
    Some(TimeRequest {
        chip,
        package_name,
        asc,
        delays,
    })
}

fn sample_of(found: &ArgMatches<'_>) -> Option<SampleRequest>
    ensures value { option_map sample_view result ≡ sample_of (rows_of (found_of found.now)) }
    ensures range { IfSome result (λ w. IsInLimits (Request.Sample w)) }
{
    let number = number_of(found, "NUMBER", 0, u64::MAX)?;
    let workers = workers_of(found)?;
    Some(SampleRequest { number, workers })
}

// The request of a subcommand.
fn asked_of<'a>(name: &str, found: &ArgMatches<'a>) -> Option<Request<'a>>
    ensures value { option_map request_view result
        ≡ asked_of name.now (rows_of (found_of found.now)) }
    ensures range { IfSome result IsInLimits }
{
    if name == "build" {
        return build_of(found).map(Request::Build);
    }
    if name == "back" {
        return back_of(found).map(Request::Back);
    }
    if name == "play-net" {
        return play_net_of(found).map(Request::PlayNet);
    }
    if name == "play-bits" {
        return play_bits_of(found).map(Request::PlayBits);
    }
    if name == "time" {
        return time_of(found).map(Request::Time);
    }
    if name == "sample" {
        return match sample_of(found) {
            Some(request) => Some(Request::Sample(request)),
            None => None,
        };
    }
    None
}

/// The request of what was found in words, where a subcommand with all its values was found.
pub fn request_in<'a>(found: &ArgMatches<'a>) -> Option<Request<'a>>
    ensures value { option_map request_view result ≡ asked_in (subcommand_rows_of found.now) }
    ensures range { IfSome result IsInLimits }
{
    match found.subcommand() {
        Some((name, inner)) => asked_of(name, inner),
        None => None,
    }
}
