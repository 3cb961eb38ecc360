// What stands for the placeholders of a device's words.

/// What is put in the place of each placeholder.
#[derive(Clone, Copy)]
pub struct Filling<'f> {
    /// For `{self}`: the program's name.
    pub program: &'f str,
    /// For `{test}`: the name of the test's file.
    pub test: &'f str,
    /// For `{elf}`: the name of its executable.
    pub elf: &'f str,
    /// For `{signature}`: the name of the file in which the device leaves its signature.
    pub signature: &'f str,
    /// For `{text}`: where the text begins.
    pub text_base: u32,
    /// For `{data}`: where the data begin.
    pub data_base: u32,
}
