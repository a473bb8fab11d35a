//! What each refusal says to a person.

/// What is wrong and its limit, for every refusal by its number: of the journal, of the input and
/// of the account.
const MESSAGES: [(u8, &str); 24] = [
    (1, "the kind of a journal record is not 1 to 6"),
    (2, "the journal ends inside a record"),
    (
        3,
        "a month is above 11 (12 in a statement), or the first interim month is after the last",
    ),
    (4, "the day is 0, or the month does not have it"),
    (5, "the kind of a day is above 3"),
    (6, "a mark is neither 0 nor 1"),
    (
        7,
        "a quantity, a rate or a base level is outside its limits",
    ),
    (
        8,
        "a per mille is above 1000, or a percentage is above its limit",
    ),
    (9, "the payment is 0, or above 10000000000000 millicents"),
    (10, "the buffer is shorter than what is to be written"),
    (
        11,
        "the weather rider's gas year starts outside 2020 to 2026",
    ),
    (20, "the account is not opened"),
    (21, "the account is opened already"),
    (22, "the day is posted already"),
    (23, "the day is not posted"),
    (24, "the month is not the earliest that is open"),
    (25, "the days are not just all of the month"),
    (26, "the account is settled already"),
    (27, "an interim month is open"),
    (
        28,
        "a price is further than 10000000000000 millicents from zero",
    ),
    (29, "more lines are due than the account has room for"),
    (30, "no line has that number"),
    (
        31,
        "what is owed is 1000000 millicents or less, or more than 600000000000000",
    ),
    (
        32,
        "a late charge was made up to that line or a later one already",
    ),
];

/// What a refusal says to a person, by its number; nothing where no refusal has it
/// (`docs/ACCOUNT.md`).
pub fn message(number: u8) -> &'static str {
    MESSAGES
        .iter()
        .find(|row| row.0 == number)
        .map_or("", |row| row.1)
}
