// Words for refusals: what is wrong, and what to do. docs/RULES.md has the rules by these numbers.

// The words for each refusal, by its number. 42 and 47 name a bracket and are not here.
const WORDS: [(u32, &str); 48] = [
    (
        1,
        "the sheet is longer than 1,048,576 bytes. Split it into several sheets",
    ),
    (2, "this is no text in UTF-8. Save the sheet as UTF-8"),
    (
        3,
        "a NUL character stands here. Remove it; if the sheet was saved as UTF-16, save it as UTF-8",
    ),
    (
        5,
        "the texts in the sheet take more room than the program has. Split the sheet",
    ),
    (
        10,
        "a line that begins with '%' is a directive, and this one has no name. Remove the line, or put the text in quotes",
    ),
    (
        11,
        "an invisible character, a byte order mark, stands behind this name. Remove it",
    ),
    (
        12,
        "a number is missing behind '%YAML'. Write '%YAML 1.2', or remove the line",
    ),
    (
        13,
        "a '.' is missing behind '%YAML' and a number. Write '%YAML 1.2', or remove the line",
    ),
    (
        14,
        "a number behind '%YAML' has more than nine digits. Write '%YAML 1.2', or remove the line",
    ),
    (
        15,
        "more text follows on the line of this directive. Remove it, or make it a comment with ' #' before it",
    ),
    (
        16,
        "the name behind '%TAG' does not begin with '!'. Write it as in '%TAG !e! tag:example.com,2000:'",
    ),
    (
        17,
        "the name behind '%TAG' does not end in '!'. Write it as in '%TAG !e! tag:example.com,2000:'",
    ),
    (
        18,
        "the text behind the name of '%TAG' is missing, or begins wrongly. Write it as in '%TAG !e! tag:example.com,2000:'",
    ),
    (
        19,
        "a character that may not stand there follows the text of '%TAG'. Remove it, or put a blank before it",
    ),
    (
        20,
        "this '!<' has no '>' behind it, or has a character that may not stand before the '>'. Write '!<...>', or put the text in quotes",
    ),
    (
        21,
        "a '%' in this tag has no two hexadecimal digits behind it. Write it as in '%20'",
    ),
    (
        22,
        "a '%' code in this tag begins no character. Write the codes of a character in UTF-8, as in '%C3%A9'",
    ),
    (
        23,
        "a '%' code in this tag does not go on with the character that was begun. Write the codes of a character in UTF-8, as in '%C3%A9'",
    ),
    (
        24,
        "the '%' codes in this tag are no character. Write the codes of a character in UTF-8, as in '%C3%A9'",
    ),
    (
        25,
        "a name is missing behind the second '!' of this tag. Write it as in '!!str', or put the text in quotes",
    ),
    (
        26,
        "this may not follow a tag, a word that begins with '!'. Put a blank behind the tag, or put the text in quotes",
    ),
    (
        27,
        "a name is missing behind this '&' or '*'. Add it, or put the text in quotes",
    ),
    (
        28,
        "more than 255 brackets are open at once. Close some before this one",
    ),
    (
        29,
        "the digit behind this '|' or '>' is 0. Write 1 to 9, or leave it out",
    ),
    (
        30,
        "text follows on the line of this '|' or '>'. Begin it on the next line, or put it in quotes",
    ),
    (
        31,
        "the line below this '|' or '>' begins with a tab. Use spaces",
    ),
    (
        32,
        "this line has too few spaces in front, by the digit behind '|' or '>' or by the blank lines above. Add spaces",
    ),
    (
        33,
        "a line of '---' or '...' stands inside the quotes that open here. Close the quotes before it, or put a space before it",
    ),
    (
        34,
        "the quotes that open here are never closed. Add the closing quote",
    ),
    (
        35,
        "a line inside the quotes that open here has too few spaces in front. Add spaces, or close the quotes before it",
    ),
    (
        36,
        "a tab stands in front of a line inside quotes. Use spaces",
    ),
    (
        37,
        "the quotes that open here hold a '\\' with a letter or sign that may not follow it. Write '\\\\' for a '\\', or use single quotes",
    ),
    (
        38,
        "the quotes that open here hold a '\\x', '\\u' or '\\U' with too few digits: 2, 4 or 8 are wanted, of 0-9 and A-F. Add them, or write '\\\\' for a '\\'",
    ),
    (
        39,
        "the quotes that open here hold a '\\u' or '\\U' whose digits are no character. Correct them, or write '\\\\' for a '\\'",
    ),
    (
        40,
        "this may not follow a text in quotes. Remove it, put all of the text in quotes, or close the quotes that were left open before; a quote inside is written '' in '...' and \\\" in \"...\"",
    ),
    (
        41,
        "a line before this place has no ':' with a blank behind it where one is wanted. Write it as 'name: value', or put more spaces before it if it goes on with the line above",
    ),
    (
        43,
        "nothing may begin with this character here. Remove it, or put the text in quotes",
    ),
    (
        44,
        "a blank is missing before this '#'. Put one before it, or put the text in quotes",
    ),
    (45, "a tab stands in front of this line. Use spaces"),
    (
        46,
        "this '-', '?' or ':' may not stand here. In brackets write no '-', and ',' between two entries; elsewhere begin a new line for it, or put the text in quotes",
    ),
    (
        48,
        "more than 255 lists or fields are open inside each other. Use fewer levels",
    ),
    (
        49,
        "text follows '...' on its line. Begin a new line for it",
    ),
    (
        51,
        "what stands in brackets here is too long to be read as one name or entry. Begin the list on the line of its name, as in 'seeds: [1, 2, 3]', with no braces around it, with nothing but numbers in it, and with ',' between two of them",
    ),
    (
        52,
        "the program has too little room to read any sheet. This is a fault of the program: report it",
    ),
    (
        70,
        "this field is not known, or it was there before. A job sheet has the fields sample, panel and seeds, each once",
    ),
    (
        71,
        "the sheet ends, and a field is missing. Add it: a job sheet has the fields sample, panel and seeds",
    ),
    (
        72,
        "this is no seed. Write a whole number from 0 to 4294967295, in digits alone and with no 0 in front; put ',' between two seeds",
    ),
    (
        73,
        "this does not belong here in a job sheet, or a text behind ':' or a ',' before it is missing. Write three lines: 'sample: TEXT', 'panel: TEXT' and 'seeds: [1, 2, 3]'",
    ),
];

// What is wrong, and what to do, by the number of a refusal.
pub(crate) fn words(number: u32) -> &'static str {
    match WORDS.iter().find(|row| row.0 == number) {
        Some(row) => row.1,
        None =>
            "the program refuses the sheet and has no words for the reason. Report the number to whoever looks after the program",
    }
}

// A byte order mark where none may stand.
pub(crate) const HIDDEN_MARK: &str =
    "an invisible character, a byte order mark, stands here. Remove it, or save the sheet as UTF-8 without one";
