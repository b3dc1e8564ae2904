//! A `Hint` names a common mistake, such as a form of another language in a Cool program, and has a sentence of advice about it.

ghost use Rattle.std.specs.Prelude.{◌≡◌};
ghost use Rattle.cool_guess.specs.Hints.{hint_words};

/// A hint, named by the mistake that it is about.
#[derive(Clone, Copy)]
pub enum Hint {
    /// A byte order mark at the beginning of a file.
    ByteOrderMark,
    /// A text in UTF-16.
    NoUtf16,
    /// A comment of another language up to the end of its line.
    LineComment,
    /// A comment of C.
    BlockComment,
    /// A comment without its end.
    CommentNotClosed,
    /// The end of a comment that does not begin.
    CommentNotOpen,
    /// A string without its end.
    StringNotClosed,
    /// A string on several lines.
    StringOnNextLine,
    /// A string in other quotes, or in none.
    DoubleQuotes,
    /// A number as a string.
    NumberInQuotes,
    /// A constant of Bool as a string.
    TruthInQuotes,
    /// A constant of Bool with a capital letter.
    TruthInSmallLetters,
    /// A number that is no Int.
    GreatestInt,
    /// `=` for `<-`.
    ArrowAssigns,
    /// `<-` for `=`.
    EqualsCompares,
    /// `==`.
    OneEqualsSign,
    /// `:=`.
    NoColonEquals,
    /// A colon in front of `<-`.
    ArrowWithoutColon,
    /// `=>` outside of `case`.
    ArrowOfBranches,
    /// A value in front of `<-`.
    NameAssigned,
    /// Another sign for `=>`.
    BranchArrow,
    /// `!=` or `<>`.
    NoUnequalSign,
    /// `>` or `>=`.
    NoGreaterSign,
    /// `=<`.
    LessOrEqual,
    /// A sign of two characters with a blank in it.
    OneSign,
    /// `and` or `&&`.
    NoAnd,
    /// `or` or `||`.
    NoOr,
    /// `not` behind its expression.
    NotBefore,
    /// `isvoid` as a method.
    IsvoidBefore,
    /// `!`.
    NotWord,
    /// `-` with one operand.
    Negative,
    /// `%` or `mod`.
    NoRemainder,
    /// `**`.
    NoPower,
    /// `<<` or `>>`.
    NoShift,
    /// `+=` and others.
    NoAssignmentOfSums,
    /// `++`.
    NoIncrement,
    /// `--` for a decrement.
    NoDecrement,
    /// A blank or dash of a text program.
    PlainCharacters,
    /// `->` for a dot.
    DotCalls,
    /// A number in hexadecimal, or with `_`.
    DigitsOnly,
    /// A decimal number.
    NoDecimals,
    /// A name that begins with `_`.
    NoUnderscore,
    /// `? :`.
    NoConditional,
    /// `instanceof`.
    NoInstanceof,
    /// `interface` or `abstract`.
    NoInterfaces,
    /// `do`.
    NoDo,
    /// `let` without a type.
    TypeOfVariable,
    /// 0 or 1 as a condition.
    TruthAsCondition,
    /// Two comparisons in one.
    NoChainedComparison,
    /// `;` in the middle of an expression.
    NoSemicolon,
    /// A comma behind the last of several.
    NoComma,
    /// Two tokens in the wrong order.
    Exchanged,
    /// Another word for `inherits`.
    InheritsWord,
    /// Another word for `loop`.
    LoopWord,
    /// Another word for `pool`.
    PoolEnds,
    /// Another word for `fi`.
    FiEnds,
    /// Another word for `esac`.
    EsacEnds,
    /// `elif`.
    ElseIf,
    /// `then` behind `else`.
    ElseWithoutThen,
    /// A branch of `if` without an expression.
    EmptyBranch,
    /// `switch` or `match`.
    CaseWord,
    /// `switch (..)`.
    NoSwitch,
    /// A constant in a branch.
    BranchOfClass,
    /// A branch without a type.
    BranchType,
    /// `this`.
    SelfWord,
    /// `self` as a formal.
    SelfIsNoFormal,
    /// `return`.
    NoReturn,
    /// `for`.
    NoFor,
    /// `break`.
    NoBreak,
    /// `continue`.
    NoContinue,
    /// `null`.
    NoNull,
    /// `super`.
    NoSuper,
    /// `import`.
    NoImport,
    /// `try` or `throw`.
    NoExceptions,
    /// `[`.
    NoArrays,
    /// `List<Int>`.
    NoTypeParameters,
    /// A cast.
    NoCasts,
    /// `static`, `def` and others.
    NoModifiers,
    /// `public` and others.
    NoAccessModifiers,
    /// `override`.
    NoOverride,
    /// A constructor.
    NoConstructors,
    /// `void` as a type.
    NoVoidType,
    /// A result type in front of a method.
    ResultType,
    /// A type in front of its name.
    TypeAfterName,
    /// The types of Java in the head of a method.
    TypesOfMethod,
    /// A type with a small letter.
    CapitalLetter,
    /// Another name with a capital letter.
    SmallLetter,
    /// A local variable without `let`.
    DeclareByLet,
    /// `let` in front of an attribute.
    AttributeWithoutLet,
    /// A variable behind the body of its `let`.
    BodyOfLet,
    /// A name that nothing declares.
    DeclareAttribute,
    /// An attribute that is inherited.
    InheritedAttribute,
    /// A value of another type than the declared one.
    DeclaredType,
    /// A parent that cannot be one.
    InheritFromObject,
    /// A method of IO in a class that does not have it.
    InheritFromIO,
    /// No class Main.
    ClassMain,
    /// No method main.
    MethodMain,
    /// Formals of main.
    MainWithoutFormals,
    /// Braces without an expression.
    EmptyBlock,
    /// Several expressions where one stands.
    BlockOfSeveral,
    /// Parentheses behind `new C`.
    NewWithoutParentheses,
    /// Arguments of `new`.
    NewWithoutArguments,
    /// A method of a class.
    MethodOfObject,
    /// An object as an argument.
    MethodAfterObject,
    /// A call without parentheses.
    CallWithParentheses,
    /// Arguments without parentheses.
    ArgumentsInParentheses,
    /// Another number of arguments.
    ArgumentForEachFormal,
    /// `self.x`.
    AttributeAlone,
    /// An attribute behind a dot.
    NoFieldAccess,
    /// An assignment to an attribute behind a dot.
    AssignByMethod,
    /// `equals`.
    NoMethodEquals,
    /// A number as a condition.
    CompareWithZero,
    /// A sum or comparison of others than numbers.
    NumbersOnly,
    /// A sum of strings.
    JoinStrings,
    /// `System.out.println`.
    PrintingMethods,
    /// `cin >> x`.
    ReadingMethods,
    /// A number where a string is due.
    NoTextOfInt,
    /// The name of a formal in front of an argument.
    NoArgumentNames,
    /// A string with values in it.
    NoFormattedStrings,
}

/// The sentence of a hint.
pub fn hint_words(hint: Hint) -> &'static str
    ensures { result.now ≡ hint_words hint }
{
    match hint {
        Hint::ByteOrderMark => "save the file without a byte order mark",
        Hint::NoUtf16 => "save the file as UTF-8: it is in UTF-16, which Cool does not read",
        Hint::LineComment => "begin a comment with `--`",
        Hint::BlockComment => "write a comment of several lines between `(*` and `*)`",
        Hint::CommentNotClosed => "close each `(*` with a `*)`",
        Hint::CommentNotOpen => "remove the `*)`: no comment is open here",
        Hint::StringNotClosed => "close the string with `\"`",
        Hint::StringOnNextLine => "end the line with `\\` to continue the string on the next line",
        Hint::DoubleQuotes => "write strings in double quotes",
        Hint::NumberInQuotes => "write a number without quotes",
        Hint::TruthInQuotes => "write `true` and `false` without quotes",
        Hint::TruthInSmallLetters => "begin `true` and `false` with a small letter",
        Hint::GreatestInt => "write at most 2147483647, the greatest Int",
        Hint::ArrowAssigns => "assign with `<-`: `=` compares",
        Hint::EqualsCompares => "compare with `=`: `<-` assigns",
        Hint::OneEqualsSign => "compare with a single `=`",
        Hint::NoColonEquals => "assign with `<-`: Cool has no `:=`",
        Hint::ArrowWithoutColon => "assign with `<-`, without `:`",
        Hint::ArrowOfBranches => "assign with `<-`: `=>` belongs to a branch of `case`",
        Hint::NameAssigned =>
            "assign to a name: only a variable or an attribute can stand before `<-`",
        Hint::BranchArrow => "write `=>` before the value of a branch of `case`",
        Hint::NoUnequalSign => "Cool has no `!=` or `<>`: write `not a = b`",
        Hint::NoGreaterSign =>
            "Cool has no `>` or `>=`: exchange the two sides and write `<` or `<=`",
        Hint::LessOrEqual => "write `<=` for less than or equal",
        Hint::OneSign => "write `<-`, `<=` and `=>` without a blank inside",
        Hint::NoAnd => "Cool has no `and` or `&&`: write `if a then b else false fi`",
        Hint::NoOr => "Cool has no `or` or `||`: write `if a then true else b fi`",
        Hint::NotBefore => "write `not` before the expression that it negates",
        Hint::IsvoidBefore => "write `isvoid` before the expression that it tests",
        Hint::NotWord => "write `not` instead of `!`",
        Hint::Negative => "write `~` for the minus sign of a negative number",
        Hint::NoRemainder => "Cool has no `%` or `mod`: write `a - a / b * b` for the remainder",
        Hint::NoPower => "Cool has no `**` or `^`: write a method that multiplies in a loop",
        Hint::NoShift => "Cool has no `<<` or `>>`: multiply or divide",
        Hint::NoAssignmentOfSums => "Cool has no `+=` or `-=`: write `x <- x + a`",
        Hint::NoIncrement => "Cool has no `++`: write `x <- x + 1`",
        Hint::NoDecrement => "`--` begins a comment: write `x <- x - 1`",
        Hint::PlainCharacters =>
            "write plain blanks and minus signs: these were copied from another program",
        Hint::DotCalls => "call a method with `.` after the object",
        Hint::DigitsOnly => "write a number with the digits `0` to `9` only",
        Hint::NoDecimals => "Cool has only whole numbers: write an Int without a decimal point",
        Hint::NoUnderscore => "begin a name with a letter",
        Hint::NoConditional => "Cool has no `? :`: write `if a then b else c fi`",
        Hint::NoInstanceof =>
            "Cool has no `instanceof`: write `case`, which selects a branch by the class of a value",
        Hint::NoInterfaces =>
            "Cool has no interfaces or abstract classes: write a class whose methods the classes below redefine",
        Hint::NoDo => "Cool has no `do`: write `while condition loop body pool`",
        Hint::TypeOfVariable => "declare the type of the variable, as in `let x : Int <- 5 in ..`",
        Hint::TruthAsCondition => "write `true` or `false`: a condition has type Bool",
        Hint::NoChainedComparison =>
            "compare two values at a time: write `if a < b then b < c else false fi`",
        Hint::NoSemicolon =>
            "remove the `;`: write it after a class, a feature, or an expression of a block",
        Hint::NoComma => "remove the last `,`: write it only between two items",
        Hint::Exchanged => "exchange these two tokens",
        Hint::InheritsWord => "write `inherits` before the parent class",
        Hint::LoopWord => "write `loop` before the body of a `while`",
        Hint::PoolEnds => "end a `while` with `pool`",
        Hint::FiEnds => "end an `if` with `fi`",
        Hint::EsacEnds => "end a `case` with `esac`",
        Hint::ElseIf => "Cool has no `elif`: write `else if`, and a `fi` for each `if`",
        Hint::ElseWithoutThen => "remove the `then`: the expression follows `else`",
        Hint::EmptyBranch =>
            "write an expression in each branch: Cool has no `if` without `else`, and no empty branch",
        Hint::CaseWord => "write `case x of`, which selects a branch by the class of `x`",
        Hint::NoSwitch =>
            "Cool has no `switch`: write an `if` for each value; `case x of` selects a branch by the class of `x`",
        Hint::BranchOfClass =>
            "name a class in each branch of `case`, as in `x : Int => ..`: to compare values, write `if`",
        Hint::BranchType =>
            "write a name and a type in each branch of `case`: a branch of Object takes all other values",
        Hint::SelfWord => "write `self` instead of `this`",
        Hint::SelfIsNoFormal => "remove the formal `self`: every method can use `self`",
        Hint::NoReturn => "Cool has no `return`: the last expression of a method is its value",
        Hint::NoFor => "Cool has no `for`: write `while condition loop body pool`",
        Hint::NoBreak => "Cool has no `break`: let the condition of the `while` end the loop",
        Hint::NoContinue => "Cool has no `continue`: put the rest of the loop into an `if`",
        Hint::NoNull =>
            "Cool has no `null`: a variable without an initial value is void, and `isvoid x` tests for it",
        Hint::NoSuper =>
            "Cool has no `super`: write `self@Parent.f()` to call the method of class Parent",
        Hint::NoImport => "Cool has no `import`: pass all files of the program to the compiler",
        Hint::NoExceptions =>
            "Cool has no exceptions: return a value that tells of the error, or call `abort()`",
        Hint::NoArrays =>
            "Cool has no arrays: write a class for a list, with attributes for an item and for the rest of the list",
        Hint::NoTypeParameters =>
            "Cool has no type parameters: write a class for each type of item",
        Hint::NoCasts =>
            "Cool has no casts: write `case`, which selects a branch by the class of a value",
        Hint::NoModifiers =>
            "begin a feature with its name: Cool has no `var`, `def`, `static` or `final`",
        Hint::NoAccessModifiers =>
            "Cool has no `public` or `private`: a method is visible everywhere, an attribute only in its class and the classes below",
        Hint::NoOverride =>
            "Cool has no `override`: a method with the name of an inherited one redefines it",
        Hint::NoConstructors =>
            "Cool has no constructors: write a method that sets the attributes and returns `self`",
        Hint::NoVoidType =>
            "Cool has no type `void`: write Object as the result type of a method without a useful value",
        Hint::ResultType => "write the result type after the formals, as in `f() : T`",
        Hint::TypeAfterName => "write the type after the name, as in `x : T`",
        Hint::TypesOfMethod => "write types after names, as in `f(x : T) : U`",
        Hint::CapitalLetter => "begin the name of a type with a capital letter",
        Hint::SmallLetter =>
            "begin the name of a variable, attribute or method with a small letter",
        Hint::DeclareByLet => "declare a local variable with `let x : T <- value in body`",
        Hint::AttributeWithoutLet => "declare an attribute without `let`",
        Hint::BodyOfLet => "put all that uses the variable into the body of the `let`",
        Hint::DeclareAttribute => "declare the name as an attribute",
        Hint::InheritedAttribute => "remove this attribute: the class inherits one of this name",
        Hint::DeclaredType => "declare the type that the value has",
        Hint::InheritFromObject => "remove the parent: the class then inherits from Object",
        Hint::InheritFromIO =>
            "inherit from IO, which has `out_string`, `out_int`, `in_string` and `in_int`",
        Hint::ClassMain => "name the class Main: a program begins there",
        Hint::MethodMain => "name the method `main`: a program begins there",
        Hint::MainWithoutFormals => "declare `main` without formals",
        Hint::EmptyBlock => "write an expression between the braces",
        Hint::BlockOfSeveral => "put several expressions into braces, with a `;` after each",
        Hint::NewWithoutParentheses => "write `new C` without parentheses",
        Hint::NewWithoutArguments =>
            "`new` takes no arguments: pass them to a method of the new object",
        Hint::MethodOfObject =>
            "call a method of an object, as in `(new C).f()`: Cool has no static methods",
        Hint::MethodAfterObject => "write the object before the method, as in `a.f()`",
        Hint::CallWithParentheses => "call a method with parentheses, as in `f()`",
        Hint::ArgumentsInParentheses => "write the arguments of a call in parentheses",
        Hint::ArgumentForEachFormal => "pass one argument for each formal of the method",
        Hint::AttributeAlone => "write an attribute by its name alone: `x` instead of `self.x`",
        Hint::NoFieldAccess =>
            "call a method after the dot: an attribute is visible only in its class and the classes below",
        Hint::AssignByMethod =>
            "call a method that assigns the attribute: it is visible only in its class and the classes below",
        Hint::NoMethodEquals => "compare with `=`: Cool has no method for it",
        Hint::CompareWithZero =>
            "compare the number, for example with 0: a condition has type Bool",
        Hint::NumbersOnly => "use `+` and `<` only with numbers: declare the name as an Int",
        Hint::JoinStrings => "join strings with `a.concat(b)`",
        Hint::PrintingMethods => "print with `out_string` or `out_int` of class IO",
        Hint::ReadingMethods => "read with `in_string()` or `in_int()` of class IO",
        Hint::NoTextOfInt =>
            "print a number with `out_int`: Cool has no method that turns an Int into a String",
        Hint::NoFormattedStrings =>
            "print the parts one after the other, or join them with `concat`: a string has no values in it",
        Hint::NoArgumentNames => "write the arguments without names, in the order of the formals",
    }
}
