//! Tests of printing the lines of a parsed assembly text, which no command does. The cases of `conformance/` show the syntax of assembly texts and their
//! errors.

use mips_text::{print_asm, read_asm};
use std::test::Fail;

/// Texts, and how they are printed.
static TEXTS: [(&str, &str); 16] = [
    ("\n a : b\t: nop # x: y\r\n\n", "\na:b:\tnop\n\n"),
    (
        "        .data\nm:      .asciiz \"hi\\n\"\n        .text\nmain:   la $a0, m\n        li $v0, 4\n        syscall\n        jr $ra\n",
        "\t.data\nm:\t.asciiz \"hi\\n\"\n\t.text\nmain:\tla $a0, m\n\tli $v0, 4\n\tsyscall\n\tjr $ra\n",
    ),
    (
        "main:li$v0 10\nlw$a0,4($sp)\nlw$t0-4($sp)\n.word-1-2-3\n.ascii\"x\"\n",
        "main:\tli $v0, 10\n\tlw $a0, 4($sp)\n\tlw $t0, -4($sp)\n\t.word -1, -2, -3\n\t.ascii \"x\"\n",
    ),
    (
        ".ascii \"\\n\\t\\\"\\\\\"\n",
        "\t.ascii \"\\n\\t\\\"\\\\\"\n",
    ),
    (
        ".asciiz \"# no comment\"# a comment\n",
        "\t.asciiz \"# no comment\"\n",
    ),
    (
        ".ascii \"raw\ttab\rcr\x00nul caf\u{e9}\"\n",
        "\t.ascii \"raw\\ttab\rcr\x00nul caf\u{e9}\"\n",
    ),
    (
        "jalr $5\njalr $6,$7\n",
        "\tjalr $ra, $a1\n\tjalr $a2, $a3\n",
    ),
    (
        "move $zero $25\nmove $k1 $fp\nmove $9 $31\nmove $10 $30\n",
        "\tmove $zero, $t9\n\tmove $k1, $fp\n\tmove $t1, $ra\n\tmove $t2, $fp\n",
    ),
    (
        "add $1,$2,$3\naddu $1,$2,$3\nsub $1,$2,$3\nsubu $1,$2,$3\nand $1,$2,$3\nor $1,$2,$3\nxor $1,$2,$3\nnor $1,$2,$3\nslt $1,$2,$3\nsltu $1,$2,$3\n",
        "\tadd $at, $v0, $v1\n\taddu $at, $v0, $v1\n\tsub $at, $v0, $v1\n\tsubu $at, $v0, $v1\n\tand $at, $v0, $v1\n\tor $at, $v0, $v1\n\txor $at, $v0, $v1\n\tnor $at, $v0, $v1\n\tslt $at, $v0, $v1\n\tsltu $at, $v0, $v1\n",
    ),
    (
        "sll $1,$2,0\nsrl $1,$2,31\nsra $1,$2,7\nsllv $1,$2,$3\nsrlv $1,$2,$3\nsrav $1,$2,$3\n",
        "\tsll $at, $v0, 0\n\tsrl $at, $v0, 31\n\tsra $at, $v0, 7\n\tsllv $at, $v0, $v1\n\tsrlv $at, $v0, $v1\n\tsrav $at, $v0, $v1\n",
    ),
    (
        "jr $5\nsyscall\nmfhi $1\nmflo $1\nmthi $1\nmtlo $1\nmult $1,$2\nmultu $1,$2\ndiv $1,$2\ndivu $1,$2\n",
        "\tjr $a1\n\tsyscall\n\tmfhi $at\n\tmflo $at\n\tmthi $at\n\tmtlo $at\n\tmult $at, $v0\n\tmultu $at, $v0\n\tdiv $at, $v0\n\tdivu $at, $v0\n",
    ),
    (
        "addi $1,$2,-32768\naddiu $1,$2,32767\nslti $1,$2,-0x8000\nsltiu $1,$2,0x7fff\nandi $1,$2,0\nori $1,$2,65535\nxori $1,$2,0xFFFF\nlui $1,65535\n",
        "\taddi $at, $v0, -32768\n\taddiu $at, $v0, 32767\n\tslti $at, $v0, -32768\n\tsltiu $at, $v0, 32767\n\tandi $at, $v0, 0\n\tori $at, $v0, 65535\n\txori $at, $v0, 65535\n\tlui $at, 65535\n",
    ),
    (
        "beq $1,$2,x\nbne $1,$2,-32768\nblez $1,x\nbgtz $1,32767\nbltz $1,x\nbgez $1,-1\nj x\njal 67108863\n",
        "\tbeq $at, $v0, x\n\tbne $at, $v0, -32768\n\tblez $at, x\n\tbgtz $at, 32767\n\tbltz $at, x\n\tbgez $at, -1\n\tj x\n\tjal 67108863\n",
    ),
    (
        "lb $1,-32768($2)\nlh $1,32767($2)\nlw $1,($2)\nlbu $1,0 ( $2 )\nlhu $1,1($2)\nsb $1,( $2 )\nsh $1,3($2)\nsw $1,-4($29)\n",
        "\tlb $at, -32768($v0)\n\tlh $at, 32767($v0)\n\tlw $at, 0($v0)\n\tlbu $at, 0($v0)\n\tlhu $at, 1($v0)\n\tsb $at, 0($v0)\n\tsh $at, 3($v0)\n\tsw $at, -4($sp)\n",
    ),
    (
        "la $1,x\nneg $1,$2\nb x\nbeqz $1,x\nbnez $1,x\nbgt $1,$2,x\nbge $1,$2,x\nblt $1,$2,x\nble $1,$2,x\nmul $1,$2,$3\n",
        "\tla $at, x\n\tneg $at, $v0\n\tb x\n\tbeqz $at, x\n\tbnez $at, x\n\tbgt $at, $v0, x\n\tbge $at, $v0, x\n\tblt $at, $v0, x\n\tble $at, $v0, x\n\tmul $at, $v0, $v1\n",
    ),
    (
        ".data\n.globl x\n.byte -128 255\n.asciiz \"\"\n.space 268435456\n.align 12\n",
        "\t.data\n\t.globl x\n\t.byte -128, 255\n\t.asciiz \"\"\n\t.space 268435456\n\t.align 12\n",
    ),
];

#[test]
fn printed_texts(rt: HostRuntime) -> Result<(), Fail> {
    for (text, printed) in &TEXTS {
        let bytes = text.as_bytes();
        assert!(rt; bytes.len() <= 532_676_628);
        let Ok(lines) = read_asm(rt.alloc(), bytes) else {
            return Err(Fail::from("no lines"));
        };
        let again = print_asm(rt.alloc(), &lines)?;
        assert_eq!(rt; again.as_slice(), printed.as_bytes(), "{text}");
    }
    Ok(())
}
