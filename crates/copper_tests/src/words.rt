// Files with what is read of them, and attributes with their fields.
use gerber_words::{Step, Word, Words};
use std::alloc::{AllocError, Global};
use std::fmt::Write;
use std::str;
use std::test::Fail;

/// Files, each with its words and its stop.
static FILES: [(&str, &str); 63] = [
    ("", "End"),
    (" ", "End"),
    ("\t", "End"),
    ("\r", "End"),
    ("\n", "End"),
    ("*", "0:\nEnd"),
    ("%", "NotEnded 1"),
    ("a", "NotEnded 0"),
    ("a*", "0:a\nEnd"),
    ("**", "0:\n1:\nEnd"),
    ("%%", "PercentAmiss 1"),
    ("% %", "PercentAmiss 2"),
    ("%\t%", "PercentAmiss 2"),
    ("%*%", "1%\nEnd"),
    ("%a", "NotEnded 1"),
    ("%a*", "1%a\nNotEnded 3"),
    ("%a*%", "1%a\nEnd"),
    ("%a*%%b*%", "1%a\n5%b\nEnd"),
    ("%a*b*%c*", "1%a\n3%b\n6:c\nEnd"),
    ("%a*%%", "1%a\nNotEnded 5"),
    ("%a*%%%", "1%a\nPercentAmiss 5"),
    ("% a*\n%\tb*", "2%a\n7:b\nEnd"),
    (" a%*", "PercentAmiss 1"),
    ("a b*", "0:a b\nEnd"),
    ("a\tb*", "0:a\tb\nEnd"),
    ("a\n*", "LineBreakInWord 0"),
    ("a\r", "LineBreakInWord 0"),
    ("a\n%", "LineBreakInWord 0"),
    ("a%\n", "PercentAmiss 0"),
    ("%a*\nb", "1%a\nNotEnded 4"),
    ("a*b\n", "0:a\nLineBreakInWord 2"),
    ("a*%b\n*%", "0:a\nLineBreakInWord 3"),
    ("a*\n%*\n", "0:a\n4%\nNotEnded 6"),
    ("M02*\r\n\t M02*", "0:M02\n8:M02\nEnd"),
    (
        "%AMA*b*c*%%d*e*%AMf*g*",
        "1%AMA\n5#b\n7#c\n11%d\n13%e\n16:AMf\n20:g\nEnd",
    ),
    ("%a*AM*AM*b*%", "1%a\n3%AM\n6#AM\n9#b\nEnd"),
    // Discs that touch
    (
        "%FSLAX46Y46*%\n%MOMM*%\n%ADD10C,1.0*%\nD10*\nX0Y0D03*\nX1000000Y0D03*\nM02*\n",
        "1%FSLAX46Y46\n15%MOMM\n23%ADD10C,1.0\n36:D10\n41:X0Y0D03\n50:X1000000Y0D03\n65:M02\nEnd",
    ),
    // Apart by one nanometre
    (
        "%FSLAX46Y46*%\n%MOMM*%\n%ADD10C,1.0*%\nD10*\nX0Y0D03*\nX1000001Y0D03*\nM02*\n",
        "1%FSLAX46Y46\n15%MOMM\n23%ADD10C,1.0\n36:D10\n41:X0Y0D03\n50:X1000001Y0D03\n65:M02\nEnd",
    ),
    // A slanting tangent
    (
        "%FSLAX46Y46*%\n%MOMM*%\n%ADD10C,10.0*%\n%ADD11C,20.0*%\nD10*\nX0Y0D03*\nD11*\nX9000000Y12000000D03*\nM02*\n",
        "1%FSLAX46Y46\n15%MOMM\n23%ADD10C,10.0\n38%ADD11C,20.0\n52:D10\n57:X0Y0D03\n66:D11\n71:X9000000Y12000000D03\n93:M02\nEnd",
    ),
    // No length and no width
    (
        "%FSLAX46Y46*%\n%MOMM*%\n%ADD10C,1.0*%\n%ADD11C,0*%\nD10*\nX0Y0D02*\nX0Y0D01*\nD11*\nX5000000Y0D03*\nX9000000Y0D01*\nM02*\n",
        "1%FSLAX46Y46\n15%MOMM\n23%ADD10C,1.0\n37%ADD11C,0\n48:D10\n53:X0Y0D02\n62:X0Y0D01\n71:D11\n76:X5000000Y0D03\n91:X9000000Y0D01\n106:M02\nEnd",
    ),
    // A round end
    (
        "%FSLAX46Y46*%\n%MOMM*%\n%ADD10O,2.0X1.0*%\n%ADD11C,0.2*%\nD10*\nX0Y0D03*\nD11*\nX3000000Y0D02*\nX1100000Y0D01*\nM02*\n",
        "1%FSLAX46Y46\n15%MOMM\n23%ADD10O,2.0X1.0\n41%ADD11C,0.2\n54:D10\n59:X0Y0D03\n68:D11\n73:X3000000Y0D02\n88:X1100000Y0D01\n103:M02\nEnd",
    ),
    // A round end, apart
    (
        "%FSLAX46Y46*%\n%MOMM*%\n%ADD10O,2.0X1.0*%\n%ADD11C,0.2*%\nD10*\nX0Y0D03*\nD11*\nX3000000Y0D02*\nX1100001Y0D01*\nM02*\n",
        "1%FSLAX46Y46\n15%MOMM\n23%ADD10O,2.0X1.0\n41%ADD11C,0.2\n54:D10\n59:X0Y0D03\n68:D11\n73:X3000000Y0D02\n88:X1100001Y0D01\n103:M02\nEnd",
    ),
    // Crossing bars
    (
        "%FSLAX46Y46*%\n%MOMM*%\n%ADD10R,4.0X1.0*%\n%ADD11R,1.0X4.0*%\nD10*\nX0Y0D03*\nD11*\nX0Y0D03*\nM02*\n",
        "1%FSLAX46Y46\n15%MOMM\n23%ADD10R,4.0X1.0\n41%ADD11R,1.0X4.0\n58:D10\n63:X0Y0D03\n72:D11\n77:X0Y0D03\n86:M02\nEnd",
    ),
    // A plate with a hole by a cut-in
    (
        "%FSLAX46Y46*%\n%MOMM*%\nG36*\nX0Y0D02*\nX10000000Y0D01*\nX10000000Y10000000D01*\nX0Y10000000D01*\nX0Y5000000D01*\nX3000000Y5000000D01*\nX3000000Y7000000D01*\nX7000000Y7000000D01*\nX7000000Y3000000D01*\nX3000000Y3000000D01*\nX3000000Y5000000D01*\nX0Y5000000D01*\nX0Y0D01*\nG37*\n%ADD10C,1.0*%\nD10*\nX1500000Y8000000D03*\nX5000000Y5000000D03*\nM02*\n",
        "1%FSLAX46Y46\n15%MOMM\n22:G36\n27:X0Y0D02\n36:X10000000Y0D01\n52:X10000000Y10000000D01\n75:X0Y10000000D01\n91:X0Y5000000D01\n106:X3000000Y5000000D01\n127:X3000000Y7000000D01\n148:X7000000Y7000000D01\n169:X7000000Y3000000D01\n190:X3000000Y3000000D01\n211:X3000000Y5000000D01\n232:X0Y5000000D01\n247:X0Y0D01\n256:G37\n262%ADD10C,1.0\n275:D10\n280:X1500000Y8000000D03\n301:X5000000Y5000000D03\n322:M02\nEnd",
    ),
    // Twice round
    (
        "%FSLAX46Y46*%\n%MOMM*%\nG36*\nX0Y0D02*\nX10000000Y0D01*\nX10000000Y10000000D01*\nX0Y10000000D01*\nX0Y0D01*\nX10000000Y0D01*\nX10000000Y10000000D01*\nX0Y10000000D01*\nX0Y0D01*\nG37*\nM02*\n",
        "1%FSLAX46Y46\n15%MOMM\n22:G36\n27:X0Y0D02\n36:X10000000Y0D01\n52:X10000000Y10000000D01\n75:X0Y10000000D01\n91:X0Y0D01\n100:X10000000Y0D01\n116:X10000000Y10000000D01\n139:X0Y10000000D01\n155:X0Y0D01\n164:G37\n169:M02\nEnd",
    ),
    // An open contour
    (
        "%FSLAX46Y46*%\n%MOMM*%\nG36*\nX0Y0D02*\nX1000000Y0D01*\nX1000000Y1000000D01*\nX0Y1000000D01*\nG37*\nM02*\n",
        "1%FSLAX46Y46\n15%MOMM\n22:G36\n27:X0Y0D02\n36:X1000000Y0D01\n51:X1000000Y1000000D01\n72:X0Y1000000D01\n87:G37\n92:M02\nEnd",
    ),
    // A short contour
    (
        "%FSLAX46Y46*%\n%MOMM*%\nG36*\nX0Y0D02*\nX1000000Y0D01*\nX0Y0D01*\nG37*\nM02*\n",
        "1%FSLAX46Y46\n15%MOMM\n22:G36\n27:X0Y0D02\n36:X1000000Y0D01\n51:X0Y0D01\n60:G37\n65:M02\nEnd",
    ),
    // Step and repeat
    (
        "%FSLAX46Y46*%\n%MOMM*%\n%ADD10C,1.0*%\nD10*\n%SRX3Y2I1.0J1.0*%\nX0Y0D03*\n%SR*%\nM02*\n",
        "1%FSLAX46Y46\n15%MOMM\n23%ADD10C,1.0\n36:D10\n42%SRX3Y2I1.0J1.0\n59:X0Y0D03\n69%SR\n74:M02\nEnd",
    ),
    // Too many copies
    (
        "%FSLAX46Y46*%\n%MOMM*%\n%ADD10C,1.0*%\nD10*\n%SRX1000000Y1000000I1.0J1.0*%\nX0Y0D03*\n%SR*%\nM02*\n",
        "1%FSLAX46Y46\n15%MOMM\n23%ADD10C,1.0\n36:D10\n42%SRX1000000Y1000000I1.0J1.0\n71:X0Y0D03\n81%SR\n86:M02\nEnd",
    ),
    // A size in inch
    (
        "%FSLAX46Y46*%\n%MOIN*%\n%ADD10C,0.066929*%\nM02*\n",
        "1%FSLAX46Y46\n15%MOIN\n23%ADD10C,0.066929\n41:M02\nEnd",
    ),
    // A size off the grid
    (
        "%FSLAX46Y46*%\n%MOMM*%\n%ADD10C,1.0000001*%\nD10*\nX0Y0D03*\nM02*\n",
        "1%FSLAX46Y46\n15%MOMM\n23%ADD10C,1.0000001\n42:D10\n47:X0Y0D03\n56:M02\nEnd",
    ),
    // A layer of a buried barrel
    (
        "%FSLAX46Y46*%\n%MOMM*%\n%ADD10C,1.0*%\nD10*\nX0Y0D03*\nM02*\n",
        "1%FSLAX46Y46\n15%MOMM\n23%ADD10C,1.0\n36:D10\n41:X0Y0D03\n50:M02\nEnd",
    ),
    // Routs
    (
        "%FSLAX46Y46*%\n%MOMM*%\n%ADD10C,1.0*%\nD10*\nX0Y0D03*\nX5000000Y0D03*\nM02*\n",
        "1%FSLAX46Y46\n15%MOMM\n23%ADD10C,1.0\n36:D10\n41:X0Y0D03\n50:X5000000Y0D03\n65:M02\nEnd",
    ),
    // A short of three names
    (
        "%FSLAX46Y46*%\n%MOMM*%\n%ADD10C,1.0*%\nD10*\nX0Y0D03*\nX1000000Y0D03*\nX2000000Y0D03*\nX1000000Y1000000D03*\nX2000000Y1000000D03*\nM02*\n",
        "1%FSLAX46Y46\n15%MOMM\n23%ADD10C,1.0\n36:D10\n41:X0Y0D03\n50:X1000000Y0D03\n65:X2000000Y0D03\n80:X1000000Y1000000D03\n101:X2000000Y1000000D03\n122:M02\nEnd",
    ),
    // Nothing at all
    (
        "%FSLAX46Y46*%\n%MOMM*%\nM02*\n",
        "1%FSLAX46Y46\n15%MOMM\n22:M02\nEnd",
    ),
    // An arc after others
    (
        "%FSLAX46Y46*%\n%MOMM*%\n%ADD10C,1.0*%\nD10*\nX0Y0D03*\nX0Y0D02*\nG02*\nX1000000Y0D01*\n%LPC*%\nM02*\n",
        "1%FSLAX46Y46\n15%MOMM\n23%ADD10C,1.0\n36:D10\n41:X0Y0D03\n50:X0Y0D02\n59:G02\n64:X1000000Y0D01\n80%LPC\n86:M02\nEnd",
    ),
    // Cut in a word
    (
        "%FSLAX46Y46*%\n%MOMM*%\n%ADD10C,1.0*%\nD10*\nX0Y0D03*\nX1000000Y0D0",
        "1%FSLAX46Y46\n15%MOMM\n23%ADD10C,1.0\n36:D10\n41:X0Y0D03\nNotEnded 50",
    ),
    // Cut before the last line
    (
        "%FSLAX46Y46*%\n%MOMM*%\n%ADD10C,1.0*%\nD10*\nX0Y0D03*\nX1000000Y0D03*\n",
        "1%FSLAX46Y46\n15%MOMM\n23%ADD10C,1.0\n36:D10\n41:X0Y0D03\n50:X1000000Y0D03\nEnd",
    ),
    // A word after the end
    (
        "%FSLAX46Y46*%\n%MOMM*%\n%ADD10C,1.0*%\nD10*\nX0Y0D03*\nX1000000Y0D03*\nM02*\nG04*\n",
        "1%FSLAX46Y46\n15%MOMM\n23%ADD10C,1.0\n36:D10\n41:X0Y0D03\n50:X1000000Y0D03\n65:M02\n70:G04\nEnd",
    ),
    // Two discs far apart
    (
        "%FSLAX46Y46*%\n%MOMM*%\n%ADD10C,1.0*%\nD10*\nX500000Y500000D03*\nX299500000Y299500000D03*\nM02*\n",
        "1%FSLAX46Y46\n15%MOMM\n23%ADD10C,1.0\n36:D10\n41:X500000Y500000D03\n60:X299500000Y299500000D03\n85:M02\nEnd",
    ),
    // Two discs of one Y
    (
        "%FSLAX46Y46*%\n%MOMM*%\n%ADD10C,1.0*%\nD10*\nX500000Y500000D03*\nX299500001Y500000D03*\nM02*\n",
        "1%FSLAX46Y46\n15%MOMM\n23%ADD10C,1.0\n36:D10\n41:X500000Y500000D03\n60:X299500001Y500000D03\n82:M02\nEnd",
    ),
    // Ordinary use, top
    (
        "%TF.GenerationSoftware,KiCad,Pcbnew,7.0.1*%\n%TF.CreationDate,2024-03-01T10:00:00+01:00*%\n%TF.SameCoordinates,Original*%\n%TF.FileFunction,Copper,L1,Top*%\n%TF.FilePolarity,Positive*%\n%FSLAX46Y46*%\nG04 Gerber Fmt 4.6, Leading zero omitted, Abs format (unit mm)*\n%MOMM*%\n%LPD*%\nG01*\nG04 APERTURE LIST*\n%TA.AperFunction,ComponentPad*%\n%ADD10C,1.600000*%\n%ADD11R,1.600000X1.600000*%\n%TD*%\n%TA.AperFunction,SMDPad,CuDef*%\n%ADD12O,1.200000X0.600000*%\n%TD*%\n%TA.AperFunction,Conductor*%\n%ADD13C,0.250000*%\n%TD*%\nG04 APERTURE END LIST*\n%TO.P,J1,1*%\n%TO.N,GND*%\nD11*\nX100000000Y-50000000D03*\n%TO.P,J1,2*%\n%TO.N,/SIG*%\nD10*\nX102540000Y-50000000D03*\n%TO.P,R1,1*%\nD12*\nX106000000Y-50000000D03*\n%TO.P,R1,2*%\n%TO.N,VCC*%\nX108000000Y-50000000D03*\n%TD*%\n%TO.N,/SIG*%\nD13*\nX102540000Y-50000000D02*\nX106000000Y-50000000D01*\n%TD*%\nM02*\n",
        "1%TF.GenerationSoftware,KiCad,Pcbnew,7.0.1\n45%TF.CreationDate,2024-03-01T10:00:00+01:00\n90%TF.SameCoordinates,Original\n121%TF.FileFunction,Copper,L1,Top\n154%TF.FilePolarity,Positive\n182%FSLAX46Y46\n195:G04 Gerber Fmt 4.6, Leading zero omitted, Abs format (unit mm)\n260%MOMM\n268%LPD\n274:G01\n279:G04 APERTURE LIST\n299%TA.AperFunction,ComponentPad\n331%ADD10C,1.600000\n350%ADD11R,1.600000X1.600000\n378%TD\n384%TA.AperFunction,SMDPad,CuDef\n416%ADD12O,1.200000X0.600000\n444%TD\n450%TA.AperFunction,Conductor\n479%ADD13C,0.250000\n498%TD\n503:G04 APERTURE END LIST\n527%TO.P,J1,1\n540%TO.N,GND\n551:D11\n556:X100000000Y-50000000D03\n582%TO.P,J1,2\n595%TO.N,/SIG\n607:D10\n612:X102540000Y-50000000D03\n638%TO.P,R1,1\n650:D12\n655:X106000000Y-50000000D03\n681%TO.P,R1,2\n694%TO.N,VCC\n705:X108000000Y-50000000D03\n731%TD\n737%TO.N,/SIG\n749:D13\n754:X102540000Y-50000000D02\n779:X106000000Y-50000000D01\n805%TD\n810:M02\nEnd",
    ),
    // Ordinary use, bottom
    (
        "%TF.FileFunction,Copper,L2,Bot*%\n%TF.FilePolarity,Positive*%\n%FSLAX46Y46*%\n%MOMM*%\n%LPD*%\nG01*\n%ADD10C,1.600000*%\n%ADD11R,1.600000X1.600000*%\n%TO.N,GND*%\nG36*\nX95000000Y-55000000D02*\nX110000000Y-55000000D01*\nX110000000Y-50000000D01*\nX104040000Y-50000000D01*\nX104040000Y-51500000D01*\nX101040000Y-51500000D01*\nX101040000Y-48500000D01*\nX104040000Y-48500000D01*\nX104040000Y-50000000D01*\nX110000000Y-50000000D01*\nX110000000Y-45000000D01*\nX95000000Y-45000000D01*\nX95000000Y-55000000D01*\nG37*\nD11*\nX100000000Y-50000000D03*\nD10*\nX102540000Y-50000000D03*\nM02*\n",
        "1%TF.FileFunction,Copper,L2,Bot\n34%TF.FilePolarity,Positive\n62%FSLAX46Y46\n76%MOMM\n84%LPD\n90:G01\n96%ADD10C,1.600000\n115%ADD11R,1.600000X1.600000\n143%TO.N,GND\n154:G36\n159:X95000000Y-55000000D02\n183:X110000000Y-55000000D01\n208:X110000000Y-50000000D01\n233:X104040000Y-50000000D01\n258:X104040000Y-51500000D01\n283:X101040000Y-51500000D01\n308:X101040000Y-48500000D01\n333:X104040000Y-48500000D01\n358:X104040000Y-50000000D01\n383:X110000000Y-50000000D01\n408:X110000000Y-45000000D01\n433:X95000000Y-45000000D01\n457:X95000000Y-55000000D01\n481:G37\n486:D11\n491:X100000000Y-50000000D03\n516:D10\n521:X102540000Y-50000000D03\n546:M02\nEnd",
    ),
];

/// Each word on a line: its place, its mark, its text. Then the stop.
fn reading(alloc: Global, file: &[u8]) -> Result<String, AllocError> {
    let mut lines = String::new(alloc);
    let mut words = Words::new(file);
    for _ in file {
        if let Step::Word(word) = words.next_word() {
            writeln!(lines, "{}{}{}", word.at, mark(&word), shown(word.text))?;
        }
    }
    match words.next_word() {
        Step::Word(_) => lines.push_str("a word too many")?,
        Step::End => lines.push_str("End")?,
        Step::Broken(fault, at) => write!(lines, "{fault:?} {at}")?,
    }
    Ok(lines)
}

/// `#` for a word of a macro's body, `%` for another extended word, `:` for a plain one.
fn mark(word: &Word) -> char {
    if word.body {
        '#'
    } else if word.extended {
        '%'
    } else {
        ':'
    }
}

fn shown(text: &[u8]) -> &str {
    str::from_utf8(text).unwrap_or("no text")
}

#[test]
fn files_are_cut(rt: HostRuntime) -> Result<(), Fail> {
    for (file, expected) in &FILES {
        let read = reading(rt.alloc(), file.as_bytes())?;
        assert_eq!(rt; read.as_str(), *expected, "{file:?}");
    }
    Ok(())
}

/// Texts of words, extended or not, each with its kind of attribute and its fields, each in
/// brackets.
static WORDS: [(&str, bool, &str); 12] = [
    (
        "TF.FileFunction,Copper,L1,Top",
        true,
        "File[.FileFunction][Copper][L1][Top]",
    ),
    ("TFFileFunction", true, "File[FileFunction]"),
    (
        "TA.AperFunction,ComponentPad",
        true,
        "Aperture[.AperFunction][ComponentPad]",
    ),
    ("TO.P,J1,,1", true, "Object[.P][J1][][1]"),
    ("TO.N,", true, "Object[.N][]"),
    ("TO,,", true, "Object[][][]"),
    ("TD", true, "Delete[]"),
    ("TD.N", true, "Delete[.N]"),
    ("TF.FileFunction,Copper,L1,Top", false, "none"),
    ("TX.Y", true, "none"),
    ("T", true, "none"),
    (" TF.Y", true, "none"),
];

fn fields(alloc: Global, word: &Word) -> Result<String, AllocError> {
    let mut line = String::new(alloc);
    let Some(attribute) = word.attribute() else {
        line.push_str("none")?;
        return Ok(line);
    };
    write!(line, "{:?}", attribute.kind())?;
    for n in 0..9 {
        if let Some(field) = attribute.field(n) {
            write!(line, "[{}]", shown(field))?;
        }
    }
    Ok(line)
}

#[test]
fn attributes_have_fields(rt: HostRuntime) -> Result<(), Fail> {
    for (text, extended, expected) in &WORDS {
        let word = Word {
            at: 0,
            text: text.as_bytes(),
            extended: *extended,
            body: false,
        };
        let read = fields(rt.alloc(), &word)?;
        assert_eq!(rt; read.as_str(), *expected, "{text:?}");
    }
    Ok(())
}
